//! Beginning, committing and abandoning sittings.

ghost use Rattle.std.specs.Prelude.{◌≡◌, ◌+◌, ◌^◌, ◌<◌, ◌≤◌, true, List, ◌∷◌, length, pos, IsOk, OnOk, is_err, nat_lt};
ghost use Rattle.pool.specs.Held.{Carries, CarriesIn, Held, Holds, HoldsBy, OfParts, held};
ghost use Rattle.pool.specs.Sound.{memory_of, used_of, lender_of};
ghost use Rattle.pool.specs.Tree.{Tree};
ghost use Rattle.tree.specs.Append.{Behind};
ghost use Rattle.tree.specs.Insert.{compared, insert as inserted};
ghost use Rattle.tree.specs.Insertable.{Insertable};
ghost use Rattle.tree.specs.Readable.{Readable};
ghost use Rattle.tree.specs.Shape.{height};
ghost use Rattle.register.specs.Calls.{abandons, begins, commits, done_answer, line_handle, sitting_handle};
ghost use Rattle.register.specs.Contents.{earlier, instant_at, names};
ghost use Rattle.register.specs.Found.{SheetBefore, not_after_stage, sheet_in};
ghost use Rattle.register.specs.Registers.{HandsBack, IsAtRest, IsInSitting, Keeps, KeepsOthers, SameLine, SameLoan, SameSitting, Tells, pool_of};
ghost use Rattle.register.specs.Tables.{resting_record};
ghost use Rattle.register.specs.Trees.{instant_words};
ghost use Rattle.register.specs.declared.table.State.TheVariants.{Sitting as seated_at};

use crate::handle::{Line, Refused, Sitting};
use crate::refusal::Refusal;
use crate::register::Register;
use crate::table::Record;
use kinds::{Instant, NameOrder};
use pool::{Node, Pool, PoolState};
use tree::{Root, Value, insert, last, root_height};

/// The height of the highest tree that a call goes through.
pub(crate) const HIGHEST: u8 = 24;

/// The free nodes that an entry or a commit needs.
const SPARE: u16 = 256;

/// Whether fewer nodes are free than an entry or a commit needs.
pub(crate) fn is_short(free: u16) -> bool
    ensures { result ≡ nat_lt free 256 }
{
    free < SPARE
}

/// Whether the recorded instant is not greater than that of the last stage.
fn is_not_after(recorded: u32, stage: Option<(Instant, Root)>) -> bool
    ensures { result ≡ not_after_stage recorded stage }
{
    match stage {
        None => false,
        Some(stage) => recorded <= stage.0.seconds(),
    }
}

/// The root of the stage's sheet.
pub(crate) fn sheet_of(stage: Option<(Instant, Root)>) -> u16
    ensures { result ≡ sheet_in stage }
{
    match stage {
        None => 0,
        Some(stage) => stage.1.link,
    }
}

/// The root of the last stage's sheet, 0 where there is no stage, for a sitting at `recorded`; or why it cannot begin.
fn sheet_before(nodes: &[Node], root: u16, recorded: u32) -> Result<u16, Refusal>
    requires { Readable nodes.now root }
    ensures { (t : Tree) → CarriesIn nodes.now root t → SheetBefore nodes.now t recorded result }
{
    let stage = last::<Instant, Root>(nodes, root);
    if is_not_after(recorded, stage) {
        return Err(Refusal::NotLater);
    }
    if root_height(nodes, root) > HIGHEST {
        return Err(Refusal::TreeTooHigh);
    }
    Ok(sheet_of(stage))
}

/// The record of a line in a sitting on this sheet: one owner more of the sheet's root.
fn sit_down(
    nodes: &mut [Node],
    state: &mut PoolState,
    line: Record,
    recorded: u32,
    sheet: u16,
) -> Record
    requires held { (hs : List Held) × HoldsBy nodes.old state.old hs × (length hs < 2 ^ 31) }
    requires carried { (t : Tree) × CarriesIn nodes.old sheet t }
    ensures made { result ≡ record { serial = line.serial; root = line.root; state = seated_at recorded sheet } }
    ensures owned { (t : Tree) (hs : List Held) → HoldsBy nodes.old state.old hs → CarriesIn nodes.old sheet t → HoldsBy nodes.new state.new (held sheet t ∷ hs) }
    ensures used { state.new.used ≡ state.old.used }
    ensures size { length nodes.new ≡ length nodes.old }
{
    state.retain(nodes, sheet);
    line.seated(recorded, sheet)
}

/// Puts a sheet on a line's stages under a recorded instant. The owners of the stages and of the sheet become the owner of the
/// result.
fn put_stage(pool: &mut Pool<'_>, stages: u16, recorded: Instant, sheet: u16) -> u16
    requires ready { Insertable pool.old stages sheet }
    ensures owned { (t nested : Tree) (hs : List Held) → Holds pool.old (held stages t ∷ held sheet nested ∷ hs) → Holds pool.new (held result (inserted (compared instant_at earlier recorded) (instant_words recorded) (pos 0) nested t) ∷ hs) }
    ensures appended { (t : Tree) → Carries pool.old stages t → Behind (compared instant_at earlier recorded) t → used_of pool.new ≤ used_of pool.old + height t + 1 }
    ensures size { length (memory_of pool.new) ≡ length (memory_of pool.old) }
    ensures lent { lender_of pool.new ≡ lender_of pool.old }
{
    insert(pool, stages, recorded, Root { link: sheet })
}

/// Adds a sheet to the stages of a line in these nodes: as to the stages in their pool.
fn add_stage(
    nodes: &mut [Node],
    state: &mut PoolState,
    stages: u16,
    recorded: Instant,
    sheet: u16,
) -> u16
    requires ready { OfParts nodes.old state.old (λ p. Insertable p stages sheet) }
    ensures owned { (t nested : Tree) (hs : List Held) → HoldsBy nodes.old state.old (held stages t ∷ held sheet nested ∷ hs) → HoldsBy nodes.new state.new (held result (inserted (compared instant_at earlier recorded) (instant_words recorded) (pos 0) nested t) ∷ hs) }
    ensures appended { (t : Tree) → CarriesIn nodes.old stages t → Behind (compared instant_at earlier recorded) t → state.new.used ≤ state.old.used + height t + 1 }
    ensures size { length nodes.new ≡ length nodes.old }
{
    let mut pool = Pool::over(nodes, *state);
    let stages = put_stage(&mut pool, stages, recorded, sheet);
    *state = pool.state();
    stages
}

/// The record of the line at rest, with its old stages, when its sitting is abandoned: one owner fewer of the root of
/// the working sheet.
fn stand_up(nodes: &mut [Node], state: &mut PoolState, line: Record, sheet: u16) -> Record
    requires { (t : Tree) × (hs : List Held) × HoldsBy nodes.old state.old (held sheet t ∷ hs) }
    ensures made { result ≡ resting_record line.serial line.root }
    ensures owned { (t : Tree) (hs : List Held) → HoldsBy nodes.old state.old (held sheet t ∷ hs) → HoldsBy nodes.new state.new hs }
    ensures fewer { state.new.used ≤ state.old.used }
    ensures size { length nodes.new ≡ length nodes.old }
{
    state.release(nodes, sheet);
    line.rested()
}

// What is asked of the nodes on the way to a change is asked by `&self`: a proof knows then that asking changes nothing.
impl<N: NameOrder> Register<'_, N> {
    /// The height of a tree.
    fn height_of(&self, root: u16) -> u8
        requires { (t : Tree) × Carries (pool_of self.now) root t }
        ensures { (t : Tree) → Carries (pool_of self.now) root t → result ≡ height t }
    {
        root_height(&self.nodes[..self.size], root)
    }

    /// How many nodes are free.
    fn available(&self) -> u16
        ensures { result + used_of (pool_of self.now) ≡ length (memory_of (pool_of self.now)) }
    {
        self.state.available(&self.nodes[..self.size])
    }

    /// The root of the last stage's sheet, for a sitting at `recorded`; or why it cannot begin.
    fn sheet_for(&self, root: u16, recorded: u32) -> Result<u16, Refusal>
        requires { Readable (memory_of (pool_of self.now)) root }
        ensures { (t : Tree) → Carries (pool_of self.now) root t → SheetBefore (memory_of (pool_of self.now)) t recorded result }
    {
        sheet_before(&self.nodes[..self.size], root, recorded)
    }
}

impl<'m, N: NameOrder> Register<'m, N> {
    /// Begins a sitting at a recorded instant. Its working sheet is that of the last stage, or an empty one.
    pub fn begin(&mut self, line: Line, recorded: u32) -> Result<Sitting, Refused<Line>>
        ensures told { Tells (names N.Key.words N.Key.key N.cmp N.NameOrder.named N.NameOrder.name) self.old (begins (line_handle line) recorded) (done_answer result) self.new }
        ensures lent { SameLoan self.old self.new }
        ensures back { HandsBack line result }
        ensures kept { SameSitting (line_handle line) result }
        ensures same { is_err result ≡ true → self.new ≡ self.old }
        ensures sits { OnOk result (IsInSitting self.new (line_handle line)) }
        ensures lines { KeepsOthers IsAtRest (line_handle line) self.old self.new }
        ensures sittings { Keeps IsInSitting self.old self.new }
    {
        let Ok(record) = self.table.resting(&line) else {
            return Err(Refused {
                handle: line,
                why: Refusal::NoSuchLine,
            });
        };
        let sheet = match self.sheet_for(record.root, recorded) {
            Ok(sheet) => sheet,
            Err(why) => return Err(Refused { handle: line, why }),
        };
        let (place, serial) = line.into_parts();
        let seated = sit_down(
            &mut self.nodes[..self.size],
            &mut self.state,
            record,
            recorded,
            sheet,
        );
        self.table.put(place, seated);
        Ok(Sitting::from_parts(place, serial))
    }

    /// Adds the working sheet as the last stage, and gives the line back.
    pub fn commit(&mut self, sitting: Sitting) -> Result<Line, Refused<Sitting>>
        ensures told { Tells (names N.Key.words N.Key.key N.cmp N.NameOrder.named N.NameOrder.name) self.old (commits (sitting_handle sitting)) (done_answer result) self.new }
        ensures lent { SameLoan self.old self.new }
        ensures back { HandsBack sitting result }
        ensures kept { SameLine (sitting_handle sitting) result }
        ensures same { is_err result ≡ true → self.new ≡ self.old }
        ensures rests { OnOk result (IsAtRest self.new (sitting_handle sitting)) }
        ensures lines { Keeps IsAtRest self.old self.new }
        ensures sittings { KeepsOthers IsInSitting (sitting_handle sitting) self.old self.new }
    {
        let Ok((record, recorded, sheet)) = self.table.sitting(&sitting) else {
            return Err(Refused {
                handle: sitting,
                why: Refusal::NoSuchLine,
            });
        };
        if self.height_of(record.root) > HIGHEST {
            return Err(Refused {
                handle: sitting,
                why: Refusal::TreeTooHigh,
            });
        }
        if is_short(self.available()) {
            return Err(Refused {
                handle: sitting,
                why: Refusal::NodesShort,
            });
        }
        let (place, serial) = sitting.into_parts();
        let root = add_stage(
            &mut self.nodes[..self.size],
            &mut self.state,
            record.root,
            Instant::from(recorded),
            sheet,
        );
        self.table.put(place, Record::resting(serial, root));
        Ok(Line::from_parts(place, serial))
    }

    /// Drops the working sheet, and gives the line back with its old stages.
    pub fn abandon(&mut self, sitting: Sitting) -> Result<Line, Refused<Sitting>>
        ensures told { Tells (names N.Key.words N.Key.key N.cmp N.NameOrder.named N.NameOrder.name) self.old (abandons (sitting_handle sitting)) (done_answer result) self.new }
        ensures lent { SameLoan self.old self.new }
        ensures back { HandsBack sitting result }
        ensures kept { SameLine (sitting_handle sitting) result }
        ensures same { is_err result ≡ true → self.new ≡ self.old }
        ensures accepted { IsInSitting self.old (sitting_handle sitting) → IsOk result }
        ensures rests { OnOk result (IsAtRest self.new (sitting_handle sitting)) }
        ensures lines { Keeps IsAtRest self.old self.new }
        ensures sittings { KeepsOthers IsInSitting (sitting_handle sitting) self.old self.new }
    {
        let Ok((record, _, sheet)) = self.table.sitting(&sitting) else {
            return Err(Refused {
                handle: sitting,
                why: Refusal::NoSuchLine,
            });
        };
        let (place, serial) = sitting.into_parts();
        let rested = stand_up(&mut self.nodes[..self.size], &mut self.state, record, sheet);
        self.table.put(place, rested);
        Ok(Line::from_parts(place, serial))
    }
}
