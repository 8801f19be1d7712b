//! The trees of a sheet and its cards: what an entry finds there, and how it changes them.

ghost use Rattle.std.specs.Prelude.{◌≡◌, ◌+◌, ◌-◌, ◌*◌, ◌≤◌, List, ◌∷◌, length, pos, IfOk, is_some};
ghost use Rattle.std.specs.Result.{result_err};
ghost use Rattle.pool.specs.Held.{Carries, CarriesIn, Held, Holds, HoldsBy, OfParts, SoundMemory, held};
ghost use Rattle.pool.specs.Sound.{lender_of, memory_of, used_of};
ghost use Rattle.pool.specs.Tree.{Tree};
ghost use Rattle.tree.specs.Insert.{compared, insert as inserted};
ghost use Rattle.tree.specs.Insertable.{Insertable};
ghost use Rattle.tree.specs.Lookup.{find as found};
ghost use Rattle.tree.specs.Readable.{Readable};
ghost use Rattle.tree.specs.Shape.{Balanced, height};
ghost use Rattle.register.specs.Contents.{card_tree, earlier, instant_at, names};
ghost use Rattle.register.specs.Entries.{Changeable, Enterable, Stands, entry_refusal};
ghost use Rattle.register.specs.Shapes.{Filed, SheetWith};
ghost use Rattle.register.specs.Trees.{changed_tree, entered_tree};
ghost use Rattle.register.specs.declared.entries.Change.{Change};

use crate::entries::Change;
use crate::refusal::Refusal;
use crate::sittings::{HIGHEST, is_short};
use kinds::{Instant, NameOrder, Reading};
use pool::{Node, Pool, PoolState};
use tree::{Root, find, insert, remove, root_height};

/// The root of a name's card; 0 where the name is not on the sheet.
pub(crate) fn card_of<N: NameOrder>(nodes: &[Node], sheet: u16, name: N) -> u16
    requires { Readable nodes.now sheet }
    ensures { (t : Tree) → CarriesIn nodes.now sheet t → CarriesIn nodes.now result (card_tree (names N.Key.words N.Key.key N.cmp N.NameOrder.named N.NameOrder.name) name t) }
{
    match find::<N, Root>(nodes, sheet, name) {
        None => 0,
        Some(card) => card.link,
    }
}

/// Whether the card has a reading at the measured instant.
fn has_reading(nodes: &[Node], card: u16, measured: Instant) -> bool
    requires { Readable nodes.now card }
    ensures { (t : Tree) → CarriesIn nodes.now card t → result ≡ is_some (found instant_at earlier measured t) }
{
    find::<Instant, Reading>(nodes, card, measured).is_some()
}

/// The root of the card on which an entry may be made; or a refusal where a tree is too high, a reading is there or is not,
/// or nodes are short.
pub(crate) fn may_enter<N: NameOrder>(
    nodes: &[Node],
    state: PoolState,
    sheet: u16,
    name: N,
    measured: Instant,
    change: Change,
) -> Result<u16, Refusal>
    requires held { SoundMemory nodes.now }
    requires carried { (t : Tree) × CarriesIn nodes.now sheet t × SheetWith Balanced Filed t }
    requires small { length nodes.now ≤ 65535 }
    requires within { state.used ≤ length nodes.now }
    ensures card { (t : Tree) → CarriesIn nodes.now sheet t → IfOk result (λ card. CarriesIn nodes.now card (card_tree (names N.Key.words N.Key.key N.cmp N.NameOrder.named N.NameOrder.name) name t)) }
    ensures declined { (t : Tree) → CarriesIn nodes.now sheet t → result_err result ≡ entry_refusal (names N.Key.words N.Key.key N.cmp N.NameOrder.named N.NameOrder.name) t name measured change (length nodes.now - state.used) }
{
    let card = card_of(nodes, sheet, name);
    if root_height(nodes, sheet) > HIGHEST {
        return Err(Refusal::TreeTooHigh);
    }
    if root_height(nodes, card) > HIGHEST {
        return Err(Refusal::TreeTooHigh);
    }
    change.conflict(has_reading(nodes, card, measured))?;
    if is_short(state.available(nodes)) {
        return Err(Refusal::NodesShort);
    }
    Ok(card)
}

/// Puts a reading on a card, or removes the one that is there. The owner of the card becomes the owner of the result.
fn change_card(pool: &mut Pool<'_>, card: u16, measured: Instant, reading: Option<Reading>) -> u16
    requires ready { Changeable pool.old card }
    ensures owned { (change : Change) (t : Tree) (hs : List Held) → Stands change reading → Holds pool.old (held card t ∷ hs) → Holds pool.new (held result (changed_tree change measured t) ∷ hs) }
    ensures used { (t : Tree) → Carries pool.old card t → used_of pool.new ≤ used_of pool.old + 3 * height t + 1 }
    ensures size { length (memory_of pool.new) ≡ length (memory_of pool.old) }
    ensures lent { lender_of pool.new ≡ lender_of pool.old }
{
    match reading {
        Some(reading) => insert(pool, card, measured, reading),
        None => remove(pool, card, measured),
    }
}

/// Puts a card on a sheet under a name, also in the place of another. The owners of the sheet and of the card become the
/// owner of the result.
fn put_card<N: NameOrder>(pool: &mut Pool<'_>, sheet: u16, name: N, card: u16) -> u16
    requires ready { Insertable pool.old sheet card }
    ensures owned { (t nested : Tree) (hs : List Held) → Holds pool.old (held sheet t ∷ held card nested ∷ hs) → Holds pool.new (held result (inserted (compared N.Key.key N.cmp name) (N.Key.words name) (pos 0) nested t) ∷ hs) }
    ensures used { (t : Tree) → Carries pool.old sheet t → used_of pool.new ≤ used_of pool.old + 3 * height t + 1 }
    ensures size { length (memory_of pool.new) ≡ length (memory_of pool.old) }
    ensures lent { lender_of pool.new ≡ lender_of pool.old }
{
    insert(pool, sheet, name, Root { link: card })
}

/// Makes an entry on a sheet where the name has this card. A card that becomes empty takes its name off the sheet. The owner
/// of the sheet becomes the owner of the result.
fn change_in<N: NameOrder>(
    pool: &mut Pool<'_>,
    sheet: u16,
    old: u16,
    name: N,
    measured: Instant,
    reading: Option<Reading>,
) -> u16
    requires card { (t : Tree) → Carries pool.old sheet t → Carries pool.old old (card_tree (names N.Key.words N.Key.key N.cmp N.NameOrder.named N.NameOrder.name) name t) }
    requires ready { Enterable (names N.Key.words N.Key.key N.cmp N.NameOrder.named N.NameOrder.name) pool.old sheet name }
    ensures owned { (change : Change) (t : Tree) (hs : List Held) → Stands change reading → Holds pool.old (held sheet t ∷ hs) → Holds pool.new (held result (entered_tree (names N.Key.words N.Key.key N.cmp N.NameOrder.named N.NameOrder.name) name measured change t) ∷ hs) }
    ensures used { (t : Tree) → Carries pool.old sheet t → used_of pool.new ≤ used_of pool.old + 3 * height t + 3 * height (card_tree (names N.Key.words N.Key.key N.cmp N.NameOrder.named N.NameOrder.name) name t) + 2 }
    ensures size { length (memory_of pool.new) ≡ length (memory_of pool.old) }
    ensures lent { lender_of pool.new ≡ lender_of pool.old }
{
    pool.retain(old);
    let card = change_card(pool, old, measured, reading);
    if card == 0 {
        remove(pool, sheet, name)
    } else {
        put_card(pool, sheet, name, card)
    }
}

/// Makes an entry on a sheet in these nodes: as on a sheet in their pool.
pub(crate) fn change_sheet<N: NameOrder>(
    nodes: &mut [Node],
    state: &mut PoolState,
    sheet: u16,
    old: u16,
    name: N,
    measured: Instant,
    reading: Option<Reading>,
) -> u16
    requires card { (t : Tree) → CarriesIn nodes.old sheet t → CarriesIn nodes.old old (card_tree (names N.Key.words N.Key.key N.cmp N.NameOrder.named N.NameOrder.name) name t) }
    requires ready { OfParts nodes.old state.old (λ p. Enterable (names N.Key.words N.Key.key N.cmp N.NameOrder.named N.NameOrder.name) p sheet name) }
    ensures owned { (change : Change) (t : Tree) (hs : List Held) → Stands change reading → HoldsBy nodes.old state.old (held sheet t ∷ hs) → HoldsBy nodes.new state.new (held result (entered_tree (names N.Key.words N.Key.key N.cmp N.NameOrder.named N.NameOrder.name) name measured change t) ∷ hs) }
    ensures used { (t : Tree) → CarriesIn nodes.old sheet t → state.new.used ≤ state.old.used + 3 * height t + 3 * height (card_tree (names N.Key.words N.Key.key N.cmp N.NameOrder.named N.NameOrder.name) name t) + 2 }
    ensures size { length nodes.new ≡ length nodes.old }
{
    let mut pool = Pool::over(nodes, *state);
    let sheet = change_in(&mut pool, sheet, old, name, measured, reading);
    *state = pool.state();
    sheet
}
