// Calls over an open sheet.
ghost use Rattle.std.specs.Prelude.{ℕ, List};
ghost use Rattle.laws.specs.Books.{Emergencies, Services};
ghost use Rattle.replay.specs.Meaning.{call_of, outcome_of, open_sheet, sheet_of, five_tables, By, Performed};

use super::answers::Answer;
use super::any_sheet::AnySheet;
use super::calls::{Action, Call};
use super::lending::part;
use books::BrakingBook;
use codes::{Class, Speed};
use ground::Entry;
use rules::{Interval, StopMark};
use sheet::{OpenSheet, Refused};
use trains::Train;

// A call over an open sheet. Entering and striking in the lent part of a table leave the rest as it was. The tables come one by one,
// since a proof loses what is written to a part of a slice behind two `&mut`.
pub(super) fn on_open<'b, B: BrakingBook, T: Train + Drop>(
    mut sheet: OpenSheet,
    call: Call<T>,
    intervals: &mut [Interval],
    gradients: &mut [Entry<Class>],
    restrictions: &mut [Entry<Speed>],
    marks: &mut [StopMark],
) -> (AnySheet<'b, B, T>, Answer<T>)
    ensures made { (E : Emergencies) (D : Services) (row : List ℕ) → Performed E D (open_sheet sheet (five_tables intervals.old gradients.old restrictions.old marks.old row)) (call_of T.Train.numbers call) (outcome_of T.Train.numbers result.1) (sheet_of T.Train.numbers result.0 (five_tables intervals.new gradients.new restrictions.new marks.new row)) }
    ensures by { (book : B) → By book result.0 }
{
    let Call { lent, action } = call;
    // Each arm returns, so that each is proved by itself, and cuts the lent part of its own table.
    match action {
        Action::EnterInterval { number, length } => {
            let room = lent.intervals.min(intervals.len());
            let r = sheet.enter_interval(&mut intervals[..room], number, length);
            return (AnySheet::Open(sheet), Answer::from(r));
        }
        Action::EnterGradient { from, to, faldtal } => {
            let room = lent.gradients.min(gradients.len());
            let r = sheet.enter_gradient(&mut gradients[..room], from, to, faldtal);
            return (AnySheet::Open(sheet), Answer::from(r));
        }
        Action::EnterRestriction { from, to, kmh } => {
            let room = lent.restrictions.min(restrictions.len());
            let r = sheet.enter_restriction(&mut restrictions[..room], from, to, kmh);
            return (AnySheet::Open(sheet), Answer::from(r));
        }
        Action::EnterMark {
            number,
            position,
            danger,
        } => {
            let room = lent.marks.min(marks.len());
            let r = sheet.enter_mark(&mut marks[..room], number, position, danger);
            return (AnySheet::Open(sheet), Answer::from(r));
        }
        Action::StrikeGradient { place } => {
            let room = lent.gradients.min(gradients.len());
            let r = sheet.strike_gradient(&mut gradients[..room], place);
            return (AnySheet::Open(sheet), Answer::from(r));
        }
        Action::StrikeRestriction { place } => {
            let room = lent.restrictions.min(restrictions.len());
            let r = sheet.strike_restriction(&mut restrictions[..room], place);
            return (AnySheet::Open(sheet), Answer::from(r));
        }
        Action::Close => {
            match sheet.close(part(intervals, lent.intervals), part(marks, lent.marks)) {
                Ok(closed) => return (AnySheet::Closed(closed), Answer::Done),
                Err(refused) => {
                    let Refused { sheet, why } = refused;
                    return (AnySheet::Open(sheet), Answer::Refused(why));
                }
            }
        }
        _ => return (AnySheet::Open(sheet), Answer::NotTaken),
    }
}
