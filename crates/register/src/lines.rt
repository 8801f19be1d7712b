//! Opening, branching, stowing, fetching and retiring lines.

ghost use Rattle.std.specs.Prelude.{◌≡◌, ◌≢◌, ◌+◌, ◌^◌, ◌<◌, ◌≤◌, drop, min, take, true, List, [], ◌∷◌, length, IfOk, IsOk, is_err};
ghost use Rattle.pool.specs.Held.{CarriesIn, Held, HoldsBy, HoldsIn, held};
ghost use Rattle.pool.specs.Tree.{Tree};
ghost use Rattle.register.specs.Calls.{branch_answer, branches, done_answer, fetches, line_answer, line_handle, opens, retires, stows};
ghost use Rattle.register.specs.Contents.{names};
ghost use Rattle.register.specs.Registers.{GivesBack, HandsBack, IsAtRest, IsInSitting, Keeps, KeepsOthers, SameLoan, ShownBy, Tells};
ghost use Rattle.register.specs.Shown.{newly_made};
ghost use Rattle.register.specs.Tables.{all_free, resting_record, vacancy_in};

use crate::handle::{Line, Refused, SPENT};
use crate::refusal::Refusal;
use crate::register::{MOST_NODES, Register};
use crate::table::{Record, State, Table};
use kinds::NameOrder;
use pool::{Node, PoolState};
use std::marker::PhantomData;

/// The last serial that a line can have.
const LAST_SERIAL: u32 = SPENT - 1;

/// The serial that the next line gets. The one after it is next then.
fn next_serial(next: &mut u32) -> u32
    requires { next.old ≤ 4294967294 }
    ensures serial { result ≡ next.old }
    ensures next { next.new ≡ next.old + 1 }
{
    let serial = *next;
    *next = serial + 1;
    serial
}

/// The record of a new line with the stages of another: one owner more of their root.
fn branch_off(nodes: &mut [Node], state: &mut PoolState, line: Record, serial: u32) -> Record
    requires held { (hs : List Held) × HoldsBy nodes.old state.old hs × (length hs < 2 ^ 31) }
    requires carried { (t : Tree) × CarriesIn nodes.old line.root t }
    ensures made { result ≡ resting_record serial line.root }
    ensures owned { (t : Tree) (hs : List Held) → HoldsBy nodes.old state.old hs → CarriesIn nodes.old line.root t → HoldsBy nodes.new state.new (held line.root t ∷ hs) }
    ensures used { state.new.used ≡ state.old.used }
    ensures size { length nodes.new ≡ length nodes.old }
{
    state.retain(nodes, line.root);
    Record::resting(serial, line.root)
}

/// The handle of the line that has this record at a place.
fn line_at(place: u32, record: Record) -> Line
    ensures place { result.place ≡ place }
    ensures serial { result.serial ≡ record.serial }
{
    Line::from_parts(place, record.serial)
}

/// Lets the stages of a line that ends go: one owner fewer of their root.
fn let_go(nodes: &mut [Node], state: &mut PoolState, line: Record)
    requires { (t : Tree) × (hs : List Held) × HoldsBy nodes.old state.old (held line.root t ∷ hs) }
    ensures owned { (t : Tree) (hs : List Held) → HoldsBy nodes.old state.old (held line.root t ∷ hs) → HoldsBy nodes.new state.new hs }
    ensures fewer { state.new.used ≤ state.old.used }
    ensures size { length nodes.new ≡ length nodes.old }
{
    state.release(nodes, line.root);
}

/// How many of these nodes a register has that is made over them.
fn size_over(memory: &[Node]) -> usize
    ensures { result ≡ min (length memory.now) 65535 }
{
    memory.len().min(MOST_NODES)
}

/// Makes the first nodes of a memory free, so many as the size says. What lies behind them is not written.
fn free_first(memory: &mut [Node], size: usize) -> PoolState
    requires small { size ≤ 65535 }
    requires within { size ≤ length memory.old }
    ensures used { result.used ≡ 0 }
    ensures free { HoldsIn (take size memory.new) result.free result.used [] }
    ensures long { length memory.new ≡ length memory.old }
    ensures behind { drop size memory.new ≡ drop size memory.old }
{
    PoolState::new(&mut memory[..size])
}

impl<'m, N: NameOrder> Register<'m, N> {
    /// A register over this memory, with all nodes and lines free and all shelves empty.
    /// Its nodes are the first of the memory, 65,535 at most. What lies behind them is never written. The first line gets the
    /// first serial; where that is 4,294,967,295, no line can be opened.
    pub fn new(memory: &'m mut [Node], first_serial: u32) -> Register<'m, N>
        ensures shown { ShownBy (names N.Key.words N.Key.key N.cmp N.NameOrder.named N.NameOrder.name) result (newly_made (min (length memory.old) 65535) first_serial) }
        ensures borrow { result.nodes.ghost_name ≡ memory.entry.ghost_name }
        ensures size { result.size ≡ min (length memory.old) 65535 }
        ensures behind { drop result.size result.nodes.now ≡ drop result.size memory.old }
    {
        let size = size_over(memory);
        let state = free_first(memory, size);
        Register::over(memory, size, state, first_serial)
    }

    /// A register over this memory without a line. Its nodes are the first of the memory, as many as the size says, and all of them
    /// are free.
    fn over(
        nodes: &'m mut [Node],
        size: usize,
        state: PoolState,
        first_serial: u32,
    ) -> Register<'m, N>
        requires small { size ≤ 65535 }
        requires within { size ≤ length nodes.old }
        requires unused { state.used ≡ 0 }
        requires free { HoldsIn (take size nodes.old) state.free state.used [] }
        ensures borrow { result.nodes.ghost_name ≡ nodes.entry.ghost_name }
        ensures nodes { result.nodes.now ≡ nodes.old }
        ensures size { result.size ≡ size }
        ensures state { result.state ≡ state }
        ensures lines { result.table.lines ≡ all_free }
        ensures next { result.next ≡ first_serial }
    {
        Register {
            nodes,
            size,
            state,
            table: Table::new(),
            next: first_serial,
            order: PhantomData,
        }
    }

    /// The place that the next line gets, or why there is no next line.
    fn vacancy(&self) -> Result<u32, Refusal>
        ensures { result ≡ vacancy_in self.now.table.lines self.now.next }
    {
        let place = self.table.vacancy().ok_or(Refusal::LinesExhausted)?;
        if self.next > LAST_SERIAL {
            return Err(Refusal::SerialsExhausted);
        }
        Ok(place as u32)
    }

    /// Opens a line at rest, without a stage.
    pub fn open_line(&mut self) -> Result<Line, Refusal>
        ensures told { Tells (names N.Key.words N.Key.key N.cmp N.NameOrder.named N.NameOrder.name) self.old opens (line_answer result) self.new }
        ensures lent { SameLoan self.old self.new }
        ensures same { is_err result ≡ true → self.new ≡ self.old }
        ensures rests { IfOk result (λ line. IsAtRest self.new (line_handle line)) }
        ensures lines { Keeps IsAtRest self.old self.new }
        ensures sittings { Keeps IsInSitting self.old self.new }
    {
        let place = self.vacancy()?;
        let serial = next_serial(&mut self.next);
        self.table.put(place, Record::resting(serial, 0));
        Ok(Line::from_parts(place, serial))
    }

    /// Branches a line at rest off another: the old one comes back, and a new one with the same stages.
    pub fn branch(&mut self, line: Line) -> Result<(Line, Line), Refused<Line>>
        ensures told { Tells (names N.Key.words N.Key.key N.cmp N.NameOrder.named N.NameOrder.name) self.old (branches (line_handle line)) (branch_answer result) self.new }
        ensures lent { SameLoan self.old self.new }
        ensures back { GivesBack line result }
        ensures same { is_err result ≡ true → self.new ≡ self.old }
        ensures rests { IfOk result (λ lines. IsAtRest self.new (line_handle lines.1)) }
        ensures apart { IfOk result (λ lines. lines.1.place ≢ lines.0.place) }
        ensures lines { Keeps IsAtRest self.old self.new }
        ensures sittings { Keeps IsInSitting self.old self.new }
    {
        let Ok(record) = self.table.resting(&line) else {
            return Err(Refused {
                handle: line,
                why: Refusal::NoSuchLine,
            });
        };
        let place = match self.vacancy() {
            Ok(place) => place,
            Err(why) => return Err(Refused { handle: line, why }),
        };
        let serial = next_serial(&mut self.next);
        let new = branch_off(
            &mut self.nodes[..self.size],
            &mut self.state,
            record,
            serial,
        );
        self.table.put(place, new);
        Ok((line, Line::from_parts(place, serial)))
    }

    /// Lays a line at rest on a shelf.
    pub fn stow(&mut self, line: Line, letter: u8) -> Result<(), Refused<Line>>
        ensures told { Tells (names N.Key.words N.Key.key N.cmp N.NameOrder.named N.NameOrder.name) self.old (stows (line_handle line) letter) (done_answer result) self.new }
        ensures lent { SameLoan self.old self.new }
        ensures back { HandsBack line result }
        ensures same { is_err result ≡ true → self.new ≡ self.old }
        ensures lines { KeepsOthers IsAtRest (line_handle line) self.old self.new }
        ensures sittings { Keeps IsInSitting self.old self.new }
    {
        let record = match self.table.may_stow(&line, letter) {
            Ok(record) => record,
            Err(why) => return Err(Refused { handle: line, why }),
        };
        let place = line.spend();
        self.table.put(place, record.stowed(letter));
        Ok(())
    }

    /// Takes the line off a shelf, with the handle that it had.
    pub fn fetch(&mut self, letter: u8) -> Result<Line, Refusal>
        ensures told { Tells (names N.Key.words N.Key.key N.cmp N.NameOrder.named N.NameOrder.name) self.old (fetches letter) (line_answer result) self.new }
        ensures lent { SameLoan self.old self.new }
        ensures same { is_err result ≡ true → self.new ≡ self.old }
        ensures rests { IfOk result (λ line. IsAtRest self.new (line_handle line)) }
        ensures lines { Keeps IsAtRest self.old self.new }
        ensures sittings { Keeps IsInSitting self.old self.new }
    {
        if !letter.is_ascii_uppercase() {
            return Err(Refusal::NotAShelf);
        }
        let (place, record) = self
            .table
            .find(State::Stowed(letter))
            .ok_or(Refusal::ShelfEmpty)?;
        self.table.put(place, record.rested());
        Ok(line_at(place, record))
    }

    /// Ends a line at rest. The nodes that only this line reached are free then.
    pub fn retire(&mut self, line: Line) -> Result<(), Refused<Line>>
        ensures told { Tells (names N.Key.words N.Key.key N.cmp N.NameOrder.named N.NameOrder.name) self.old (retires (line_handle line)) (done_answer result) self.new }
        ensures lent { SameLoan self.old self.new }
        ensures back { HandsBack line result }
        ensures same { is_err result ≡ true → self.new ≡ self.old }
        ensures accepted { IsAtRest self.old (line_handle line) → IsOk result }
        ensures lines { KeepsOthers IsAtRest (line_handle line) self.old self.new }
        ensures sittings { Keeps IsInSitting self.old self.new }
    {
        let Ok(record) = self.table.resting(&line) else {
            return Err(Refused {
                handle: line,
                why: Refusal::NoSuchLine,
            });
        };
        let place = line.spend();
        let_go(&mut self.nodes[..self.size], &mut self.state, record);
        self.table.free(place);
        Ok(())
    }
}
