// The table: its heading, and what it has for a line.
ghost use Rattle.std.specs.Prelude.{◌≡◌, Some};
ghost use Rattle.plans.specs.Table.{asked_text, sizes_of, sizes_text, counts_text, rows_text, entry_text};

use crate::planning::{LinePlan, NoPlan};
use plan::{BlockNumbers, Plan, floats_of};
use std::fmt;

pub const HEADING: &str = "\
A block made as one range: work, decimator state, filter pairs, FM carry, last (not output, spans, what is read)
line lanes active factor frames    counts            work state pairs  fm last     sum            most reads    steps
";

// What a line asks for.
#[derive(Clone, Copy)]
struct Asked(BlockNumbers);

impl fmt::Display for Asked {
    ghost output = { λ asked. Some (asked_text asked.0) };

    #[tactic(auto, using(crate::proofs::CellLaws::padded_cell, std::proofs::lemmas::Grind::common_steps), unfolding(crate::specs::Table::asked_text))]
    fn fmt<W: fmt::Write>(&self, f: &mut fmt::Formatter<W>) -> fmt::Result {
        let b = self.0;
        write!(f, "{:6}{:7}{:7}{:7}", b.lanes, b.active, b.factor, b.frames)?;
        write!(f, "{:4}{:3}{:3}", b.count0, b.count1, b.count2)
    }
}

// The size of each buffer and of all of them.
#[derive(Clone, Copy)]
struct Sizes {
    work: u64,
    state: u64,
    pairs: u64,
    fm: u64,
    last: u64,
    sum: u64,
}

impl Sizes {
    // A float is so many of the unit: 1 for floats, 4 for bytes.
    #[tactic(auto, unfolding(crate::specs::Table::sizes_of, plan::specs::Plan::floats_of))]
    fn of(p: Plan, unit: u8) -> Sizes
        ensures { result ≡ sizes_of p unit }
    {
        let unit = u64::from(unit);
        Sizes {
            work: unit * u64::from(p.work),
            state: unit * u64::from(p.state),
            pairs: unit * u64::from(p.pairs),
            fm: unit * u64::from(p.fm),
            last: unit * u64::from(p.last),
            sum: unit * floats_of(p),
        }
    }
}

impl fmt::Display for Sizes {
    ghost output = { λ sizes. Some (sizes_text sizes) };

    #[tactic(auto, using(crate::proofs::CellLaws::padded_cell, std::proofs::lemmas::Grind::common_steps), unfolding(crate::specs::Table::sizes_text))]
    fn fmt<W: fmt::Write>(&self, f: &mut fmt::Formatter<W>) -> fmt::Result {
        write!(f, "{:8}{:6}{:6}", self.work, self.state, self.pairs)?;
        write!(f, "{:4}{:5}{:8}", self.fm, self.last, self.sum)
    }
}

// Most reads and steps.
#[derive(Clone, Copy)]
struct Counts(Plan);

impl fmt::Display for Counts {
    ghost output = { λ counts. Some (counts_text counts.0) };

    #[tactic(auto, using(crate::proofs::CellLaws::padded_cell, std::proofs::lemmas::Grind::common_steps), unfolding(crate::specs::Table::counts_text))]
    fn fmt<W: fmt::Write>(&self, f: &mut fmt::Formatter<W>) -> fmt::Result {
        let p = self.0;
        write!(f, "{:10}{:9}", p.reads, p.steps)
    }
}

// A line's two rows: floats above bytes, and the block's reads and steps above one host frame's.
#[derive(Clone, Copy)]
struct Rows {
    number: u64,
    plans: LinePlan,
}

impl fmt::Display for Rows {
    ghost output = { λ rows. Some (rows_text rows.number rows.plans) };

    fn fmt<W: fmt::Write>(&self, f: &mut fmt::Formatter<W>) -> fmt::Result {
        let number = self.number;
        let asked = Asked(self.plans.numbers);
        let plan = self.plans.block;
        let floats = Sizes::of(plan, 1);
        let bytes = Sizes::of(plan, 4);
        let block = Counts(plan);
        let frame = Counts(self.plans.frame);
        writeln!(f, "{number:4}{asked}  floats{floats}  block     {block}")?;
        writeln!(f, "{:>48} {bytes}  host frame{frame}", "bytes")
    }
}

// What the table has for a line: its rows, or why it has none.
#[derive(Clone, Copy)]
pub struct Entry {
    pub number: u64,
    pub plans: Result<LinePlan, NoPlan>,
}

impl fmt::Display for Entry {
    ghost output = { λ entry. Some (entry_text entry.number entry.plans) };

    #[tactic(auto, using(crate::proofs::CellLaws::padded_cell, std::proofs::lemmas::Grind::common_steps), unfolding(crate::specs::Table::entry_text))]
    fn fmt<W: fmt::Write>(&self, f: &mut fmt::Formatter<W>) -> fmt::Result {
        let number = self.number;
        match self.plans {
            Ok(plans) => {
                let rows = Rows { number, plans };
                write!(f, "{rows}")
            }
            Err(reason) => writeln!(f, "{number:4}  {reason}"),
        }
    }
}
