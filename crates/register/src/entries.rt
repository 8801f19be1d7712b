//! Entries on the working sheet of a sitting: recording, correcting and withdrawing readings.

ghost use Rattle.std.specs.Prelude.{◌≡◌, ◌-◌, true, [], ◌∷◌, length, IfOk, is_err, nat_lt};
ghost use Rattle.std.specs.Result.{result_err};
ghost use Rattle.pool.specs.Held.{Carries};
ghost use Rattle.pool.specs.Sound.{memory_of, used_of};
ghost use Rattle.pool.specs.Tree.{Tree};
ghost use Rattle.tree.specs.Shape.{Balanced};
ghost use Rattle.register.specs.Calls.{enters, entry_answer, sitting_handle};
ghost use Rattle.register.specs.Contents.{card_tree, names};
ghost use Rattle.register.specs.Declined.{lacking, occupied};
ghost use Rattle.register.specs.Entries.{Readable, entry_refusal};
ghost use Rattle.register.specs.Refusals.{first_of};
ghost use Rattle.register.specs.Shapes.{Filed, SheetWith};
ghost use Rattle.register.specs.Registers.{IsAtRest, IsInSitting, Keeps, SameLoan, Tells, pool_of};
ghost use Rattle.register.specs.declared.entries.Change.TheVariants.{Record as records, Correct as corrects, Withdraw as withdraws};
ghost use Rattle.register.specs.declared.refusal.Refusal.TheVariants.{NoReading, ReadingThere};

use crate::handle::Sitting;
use crate::refusal::Refusal;
use crate::register::Register;
use crate::sheet::{change_sheet, may_enter};
use kinds::{Instant, Name, NameOrder, Reading};

/// What an entry does at a name and a measured instant.
#[derive(Clone, Copy)]
pub enum Change {
    /// Puts a reading where there is none.
    Record(i64),
    /// Puts another reading in the place of one that is there.
    Correct(i64),
    /// Removes a reading.
    Withdraw,
}

impl Change {
    fn recording(microhertz: i64) -> Change
        ensures { result ≡ records microhertz }
    {
        Change::Record(microhertz)
    }

    fn correcting(microhertz: i64) -> Change
        ensures { result ≡ corrects microhertz }
    {
        Change::Correct(microhertz)
    }

    /// The reading that is to stand there, or none; refused where it is out of range.
    pub(crate) fn reading(self) -> Result<Option<Reading>, Refusal>
        ensures { Readable self result }
    {
        let microhertz = match self {
            Change::Record(microhertz) => microhertz,
            Change::Correct(microhertz) => microhertz,
            Change::Withdraw => return Ok(None),
        };
        Ok(Some(Reading::try_from(microhertz)?))
    }

    /// Recording goes where no reading is, and any other entry where one is.
    pub(crate) fn conflict(self, there: bool) -> Result<(), Refusal>
        ensures { result_err result ≡ first_of ((occupied self there, ReadingThere) ∷ (lacking self there, NoReading) ∷ []) }
    {
        match self {
            Change::Record(_) if there => Err(Refusal::ReadingThere),
            Change::Correct(_) | Change::Withdraw if !there => Err(Refusal::NoReading),
            _ => Ok(()),
        }
    }
}

/// Whether the measured instant is greater than the recorded instant.
fn is_late(measured: u32, recorded: u32) -> bool
    ensures { result ≡ nat_lt recorded measured }
{
    measured > recorded
}

impl<N: NameOrder> Register<'_, N> {
    /// The root of the card on which an entry may be made, or why it may not. By `&self`: a proof knows then that asking changes
    /// nothing.
    fn card_to_change(
        &self,
        sheet: u16,
        name: N,
        measured: Instant,
        change: Change,
    ) -> Result<u16, Refusal>
        requires { (t : Tree) × Carries (pool_of self.now) sheet t × SheetWith Balanced Filed t }
        ensures card { (t : Tree) → Carries (pool_of self.now) sheet t → IfOk result (λ card. Carries (pool_of self.now) card (card_tree (names N.Key.words N.Key.key N.cmp N.NameOrder.named N.NameOrder.name) name t)) }
        ensures declined { (t : Tree) → Carries (pool_of self.now) sheet t → result_err result ≡ entry_refusal (names N.Key.words N.Key.key N.cmp N.NameOrder.named N.NameOrder.name) t name measured change (length (memory_of (pool_of self.now)) - used_of (pool_of self.now)) }
    {
        may_enter(
            &self.nodes[..self.size],
            self.state,
            sheet,
            name,
            measured,
            change,
        )
    }
}

impl<'m, N: NameOrder> Register<'m, N> {
    /// Makes an entry at a name and a measured instant on the working sheet of the sitting.
    pub(crate) fn enter(
        &mut self,
        sitting: &Sitting,
        name: &[u8],
        measured: u32,
        change: Change,
    ) -> Result<(), Refusal>
        ensures told { Tells (names N.Key.words N.Key.key N.cmp N.NameOrder.named N.NameOrder.name) self.old (enters (sitting_handle sitting.now) name.now measured change) (entry_answer result) self.new }
        ensures lent { SameLoan self.old self.new }
        ensures same { is_err result ≡ true → self.new ≡ self.old }
        ensures lines { Keeps IsAtRest self.old self.new }
        ensures sittings { Keeps IsInSitting self.old self.new }
    {
        let (record, recorded, sheet) = self.table.sitting(sitting)?;
        let name = Name::try_from(name)?;
        let reading = change.reading()?;
        if is_late(measured, recorded) {
            return Err(Refusal::MeasuredLater);
        }
        let name = N::from_name(name);
        let measured = Instant::from(measured);
        let card = self.card_to_change(sheet, name, measured, change)?;
        let sheet = change_sheet(
            &mut self.nodes[..self.size],
            &mut self.state,
            sheet,
            card,
            name,
            measured,
            reading,
        );
        self.table
            .put(sitting.place(), record.seated(recorded, sheet));
        Ok(())
    }

    /// Records a reading where the name has none at the measured instant.
    pub fn record(
        &mut self,
        sitting: &Sitting,
        name: &[u8],
        measured: u32,
        microhertz: i64,
    ) -> Result<(), Refusal>
        ensures told { Tells (names N.Key.words N.Key.key N.cmp N.NameOrder.named N.NameOrder.name) self.old (enters (sitting_handle sitting.now) name.now measured (records microhertz)) (entry_answer result) self.new }
        ensures lent { SameLoan self.old self.new }
        ensures same { is_err result ≡ true → self.new ≡ self.old }
        ensures lines { Keeps IsAtRest self.old self.new }
        ensures sittings { Keeps IsInSitting self.old self.new }
    {
        self.enter(sitting, name, measured, Change::recording(microhertz))
    }

    /// Replaces a reading that is there.
    pub fn correct(
        &mut self,
        sitting: &Sitting,
        name: &[u8],
        measured: u32,
        microhertz: i64,
    ) -> Result<(), Refusal>
        ensures told { Tells (names N.Key.words N.Key.key N.cmp N.NameOrder.named N.NameOrder.name) self.old (enters (sitting_handle sitting.now) name.now measured (corrects microhertz)) (entry_answer result) self.new }
        ensures lent { SameLoan self.old self.new }
        ensures same { is_err result ≡ true → self.new ≡ self.old }
        ensures lines { Keeps IsAtRest self.old self.new }
        ensures sittings { Keeps IsInSitting self.old self.new }
    {
        self.enter(sitting, name, measured, Change::correcting(microhertz))
    }

    /// Withdraws a reading that is there. A card that becomes empty takes its name off the sheet.
    pub fn withdraw(&mut self, sitting: &Sitting, name: &[u8], measured: u32) -> Result<(), Refusal>
        ensures told { Tells (names N.Key.words N.Key.key N.cmp N.NameOrder.named N.NameOrder.name) self.old (enters (sitting_handle sitting.now) name.now measured withdraws) (entry_answer result) self.new }
        ensures lent { SameLoan self.old self.new }
        ensures same { is_err result ≡ true → self.new ≡ self.old }
        ensures lines { Keeps IsAtRest self.old self.new }
        ensures sittings { Keeps IsInSitting self.old self.new }
    {
        self.enter(sitting, name, measured, Change::Withdraw)
    }
}
