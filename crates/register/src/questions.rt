//! Questions change nothing.

ghost use Rattle.std.specs.Prelude.{◌≡◌, ◌+◌, ◌≤◌, length, sum_by, Some, None, nat_lt};
ghost use Rattle.std.specs.Option.{option_map};
ghost use Rattle.pool.specs.FreeList.{busy};
ghost use Rattle.pool.specs.Held.{CarriesIn, SoundMemory};
ghost use Rattle.pool.specs.Reached.{Accounted};
ghost use Rattle.pool.specs.Sound.{memory_of};
ghost use Rattle.pool.specs.Tree.{Tree};
ghost use Rattle.tree.specs.Lookup.{first_after, first_of};
ghost use Rattle.tree.specs.Readable.{Readable};
ghost use Rattle.tree.specs.Shape.{Ascending, Balanced, items};
ghost use Rattle.register.specs.Calls.{as_of, asks, counted, found_answer, line_handle, name_answer, next_name, tallies, total as totals, total_answer};
ghost use Rattle.register.specs.Contents.{names};
ghost use Rattle.register.specs.Found.{CardFound, CardReady, CardTold, LineReady, RestTold, SheetFound, sheet_up_to};
ghost use Rattle.register.specs.Registers.{Answers, ShownBy, pool_of};
ghost use Rattle.register.specs.Shown.{Shown};
ghost use Rattle.register.specs.Shapes.{Filed, LineWith};
ghost use Rattle.register.specs.Tables.{roots_in};

use crate::handle::Line;
use crate::refusal::Refusal;
use crate::register::Register;
use crate::sheet::card_of;
use crate::sittings::{HIGHEST, sheet_of};
use kinds::{Instant, Name, NameOrder, Reading};
use pool::{Node, PoolState};
use tree::{Root, Total, after, at_most, first, root_height, total_between};

/// How much of a register is in use.
#[derive(Clone, Copy)]
pub struct Tally {
    /// Nodes in use.
    pub in_use: u32,
    /// Nodes free.
    pub free: u32,
    /// Live lines.
    pub lines: u32,
}

impl Tally {
    /// Of these nodes, 65,535 at most, of which the state says how many are in use, and of so many lines.
    fn of(nodes: &[Node], state: PoolState, lines: u32) -> Tally
        requires small { length nodes.now ≤ 65535 }
        requires within { state.used ≤ length nodes.now }
        ensures used { result.in_use ≡ state.used }
        ensures free { result.free + state.used ≡ length nodes.now }
        ensures lines { result.lines ≡ lines }
    {
        Tally {
            in_use: u32::from(state.in_use()),
            free: u32::from(state.available(nodes)),
            lines,
        }
    }
}

/// The root of a line's sheet as of a recorded instant; 0 where no stage is at or before it.
fn sheet_up_to(nodes: &[Node], root: u16, recorded: Instant) -> u16
    requires { Readable nodes.now root }
    ensures { (t : Tree) → CarriesIn nodes.now root t → CarriesIn nodes.now result (sheet_up_to recorded t) }
{
    sheet_of(at_most::<Instant, Root>(nodes, root, recorded))
}

/// The root of a line's sheet as of a recorded instant, 0 where no stage is at or before it; or a refusal where a tree
/// is too high.
fn find_sheet(nodes: &[Node], root: u16, recorded: Instant) -> Result<u16, Refusal>
    requires held { SoundMemory nodes.now }
    requires carried { (t : Tree) × CarriesIn nodes.now root t × LineWith Balanced Balanced Filed t }
    ensures { (t : Tree) → CarriesIn nodes.now root t → SheetFound nodes.now t recorded result }
{
    if root_height(nodes, root) > HIGHEST {
        return Err(Refusal::TreeTooHigh);
    }
    let sheet = sheet_up_to(nodes, root, recorded);
    if root_height(nodes, sheet) > HIGHEST {
        return Err(Refusal::TreeTooHigh);
    }
    Ok(sheet)
}

/// The root of a name's card on the sheet as of a recorded instant; or a refusal where a tree is too high.
fn find_card<N: NameOrder>(
    nodes: &[Node],
    root: u16,
    recorded: Instant,
    name: N,
) -> Result<u16, Refusal>
    requires held { SoundMemory nodes.now }
    requires carried { (t : Tree) × CarriesIn nodes.now root t × LineWith Balanced Balanced Filed t }
    ensures { (t : Tree) → CarriesIn nodes.now root t → CardFound (names N.Key.words N.Key.key N.cmp N.NameOrder.named N.NameOrder.name) nodes.now t recorded name result }
{
    let sheet = find_sheet(nodes, root, recorded)?;
    let card = card_of(nodes, sheet, name);
    if root_height(nodes, card) > HIGHEST {
        return Err(Refusal::TreeTooHigh);
    }
    Ok(card)
}

/// Whether the first end of a range is greater than the second.
fn are_crossed(from: u32, to: u32) -> bool
    ensures { result ≡ nat_lt to from }
{
    from > to
}

/// The name of an entry of a sheet.
fn name_of<N: NameOrder>(entry: Option<(N, Root)>) -> Option<Name>
    ensures { result ≡ option_map (λ x. N.NameOrder.name x.0) entry }
{
    match entry {
        None => None,
        Some(entry) => Some(entry.0.to_name()),
    }
}

/// The first name on a sheet.
fn first_on<N: NameOrder>(nodes: &[Node], sheet: u16) -> Option<Name>
    requires { Readable nodes.now sheet }
    ensures { (t : Tree) → CarriesIn nodes.now sheet t → result ≡ option_map (λ x. N.NameOrder.name x.key) (first_of (items N.Key.key t)) }
{
    name_of::<N>(first::<N, Root>(nodes, sheet))
}

/// The first name on a sheet after this one.
fn first_after<N: NameOrder>(nodes: &[Node], sheet: u16, name: N) -> Option<Name>
    requires { Readable nodes.now sheet }
    ensures { (t : Tree) → CarriesIn nodes.now sheet t → Ascending N.cmp (items N.Key.key t) → result ≡ option_map (λ x. N.NameOrder.name x.key) (first_after N.cmp name (items N.Key.key t)) }
{
    name_of::<N>(after::<N, Root>(nodes, sheet, name))
}

impl<N: NameOrder> Register<'_, N> {
    /// The root of a line at rest.
    fn resting(&self, line: &Line) -> Result<u16, Refusal>
        ensures told { (s : Shown) → ShownBy (names N.Key.words N.Key.key N.cmp N.NameOrder.named N.NameOrder.name) self.now s → RestTold (memory_of (pool_of self.now)) s (line_handle line.now) result }
        ensures ready { LineReady (memory_of (pool_of self.now)) result }
    {
        let record = self.table.resting(line)?;
        Ok(record.root)
    }

    /// The root of a name's card, for a question about one name.
    fn card_for(&self, line: &Line, recorded: u32, name: &[u8]) -> Result<u16, Refusal>
        ensures told { (s : Shown) → ShownBy (names N.Key.words N.Key.key N.cmp N.NameOrder.named N.NameOrder.name) self.now s → CardTold (names N.Key.words N.Key.key N.cmp N.NameOrder.named N.NameOrder.name) (memory_of (pool_of self.now)) s (line_handle line.now) recorded name.now result }
        ensures ready { CardReady (memory_of (pool_of self.now)) result }
    {
        let root = self.resting(line)?;
        let name = Name::try_from(name)?;
        find_card(
            &self.nodes[..self.size],
            root,
            Instant::from(recorded),
            N::from_name(name),
        )
    }

    /// The latest reading of a name up to a measured instant, with its instant, as it was known at a recorded instant.
    pub fn as_of(
        &self,
        line: &Line,
        recorded: u32,
        name: &[u8],
        measured: u32,
    ) -> Result<Option<(Instant, Reading)>, Refusal>
        ensures { Answers (names N.Key.words N.Key.key N.cmp N.NameOrder.named N.NameOrder.name) self.now (asks (line_handle line.now) recorded (as_of name.now measured)) (found_answer result) }
    {
        let card = self.card_for(line, recorded, name)?;
        Ok(at_most::<Instant, Reading>(&self.nodes[..self.size], card, Instant::from(measured)))
    }

    /// The number and the sum of a name's readings from one measured instant to another, both included, as they were
    /// known at a recorded instant.
    pub fn total(
        &self,
        line: &Line,
        recorded: u32,
        name: &[u8],
        from: u32,
        to: u32,
    ) -> Result<Total, Refusal>
        ensures { Answers (names N.Key.words N.Key.key N.cmp N.NameOrder.named N.NameOrder.name) self.now (asks (line_handle line.now) recorded (totals name.now from to)) (total_answer result) }
    {
        let card = self.card_for(line, recorded, name)?;
        if are_crossed(from, to) {
            return Err(Refusal::EndsCrossed);
        }
        Ok(total_between(
            &self.nodes[..self.size],
            card,
            Instant::from(from),
            Instant::from(to),
        ))
    }

    /// The first name of all, in the register's order, as it was known at a recorded instant.
    pub fn first_name(&self, line: &Line, recorded: u32) -> Result<Option<Name>, Refusal>
        ensures { Answers (names N.Key.words N.Key.key N.cmp N.NameOrder.named N.NameOrder.name) self.now (asks (line_handle line.now) recorded (next_name None)) (name_answer result) }
    {
        let root = self.resting(line)?;
        let sheet = find_sheet(&self.nodes[..self.size], root, Instant::from(recorded))?;
        Ok(first_on::<N>(&self.nodes[..self.size], sheet))
    }

    /// The first name after this one, in the register's order, as it was known at a recorded instant.
    pub fn next_name(
        &self,
        line: &Line,
        recorded: u32,
        name: &[u8],
    ) -> Result<Option<Name>, Refusal>
        ensures { Answers (names N.Key.words N.Key.key N.cmp N.NameOrder.named N.NameOrder.name) self.now (asks (line_handle line.now) recorded (next_name (Some name.now))) (name_answer result) }
    {
        let root = self.resting(line)?;
        let name = Name::try_from(name)?;
        let sheet = find_sheet(&self.nodes[..self.size], root, Instant::from(recorded))?;
        Ok(first_after::<N>(&self.nodes[..self.size], sheet, N::from_name(name)))
    }

    /// The nodes in use, the nodes free and the live lines. The nodes in use are those that a live line reaches, by its stages or
    /// by its working sheet, and no others.
    pub fn tally(&self) -> Tally
        ensures told { Answers (names N.Key.words N.Key.key N.cmp N.NameOrder.named N.NameOrder.name) self.now tallies (counted result) }
        ensures accounted { Accounted (pool_of self.now) (roots_in self.now.table.lines) }
        ensures in_use { result.in_use ≡ sum_by busy (memory_of (pool_of self.now)) }
    {
        Tally::of(&self.nodes[..self.size], self.state, self.table.live())
    }
}
