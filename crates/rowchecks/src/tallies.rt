// What was compared by one book, and how it came out.
use super::known::number_of;
use codes::Rule;
use rows::StopLetter;
use std::fmt;

#[derive(Clone, Copy, Default)]
pub struct Tally {
    pub sheets: u32,
    rows: u32,
    passes: u32,
    // how often each of the five rules is the first that is broken
    by_rule: [u32; 5],
    // sheets without a lawful row, and those with either letter
    no_row: u32,
    sf: u32,
    sv: u32,
    // answers that differ, and the first sheet with one, counted from 1
    differences: u32,
    first_differing: Option<u32>,
}

// Counts one more.
fn count(number: &mut u32) {
    *number = number.saturating_add(1);
}

impl Tally {
    // Counts the highest row of a sheet by its letter; none where there is no lawful row.
    pub fn count_highest(&mut self, letter: Option<StopLetter>) {
        count(match letter {
            None => &mut self.no_row,
            Some(StopLetter::Sf) => &mut self.sf,
            Some(StopLetter::Sv) => &mut self.sv,
        });
    }

    // Counts a row by the first rule that it breaks, if any.
    pub fn count_row(&mut self, rule: Option<Rule>) {
        count(&mut self.rows);
        let Some(rule) = rule else {
            count(&mut self.passes);
            return;
        };
        let place = (number_of(rule) as usize).saturating_sub(1);
        if let Some(number) = self.by_rule.get_mut(place) {
            count(number);
        }
    }

    // Counts an answer on the sheet that was counted last, by whether it is as due.
    pub fn count_answer(&mut self, is_due: bool) {
        if !is_due {
            count(&mut self.differences);
            self.first_differing = self.first_differing.or(Some(self.sheets));
        }
    }
}

// What was compared, how often each rule is the first that is broken and how the highest rows came out, and which sheet is the first
// with an answer that differs.
impl fmt::Display for Tally {
    fn fmt<W: fmt::Write>(&self, f: &mut fmt::Formatter<W>) -> fmt::Result {
        let Tally {
            sheets,
            rows,
            passes,
            no_row,
            sf,
            sv,
            differences,
            ..
        } = *self;
        let [one, two, three, four, five] = self.by_rule;
        write!(
            f,
            "{sheets} sheets, {rows} rows, {passes} passes, {differences} differences"
        )?;
        write!(
            f,
            "\n  first broken: rule 1 {one}, 2 {two}, 3 {three}, 4 {four}, 5 {five}"
        )?;
        write!(f, "; highest rows: Sf {sf}, Sv {sv}, none {no_row}")?;
        if let Some(number) = self.first_differing {
            write!(f, "\n  first difference: sheet {number}")?;
        }
        Ok(())
    }
}
