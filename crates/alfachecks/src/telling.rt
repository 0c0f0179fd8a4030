// The sheet Alfa: what the library answers to each case, in words, and how many lines of the table it answers.
use super::cases::{ExamineCase, WorkCase, examine_cases, work_cases};
use super::sheets::alfa_sheet;
use super::tabled::is_answered;
use super::texts::{Codes, Unworked, Verdict, Worked};
use alfa::{Variant, examples};
use books::PublishedBook;
use rows::{examine, work_out};
use rules::Line;

// What stands in a row before it is worked out.
const BLANK: u8 = 7;

// Works out one row, and ends its line with what came of it and the verdict on it.
fn tell_work(rt: &HostRuntime, line: &Line<'_>, case: WorkCase) -> anyhow::Result<()> {
    let heap = rt.alloc();
    let WorkCase {
        mark,
        approach,
        size,
        ..
    } = case;
    let mut row = vec![in heap; BLANK; size]?;
    let answer = work_out(heap, line, mark, approach, &PublishedBook, &mut row);
    let row = row.as_slice();
    match answer {
        Ok((letter, place)) => {
            let verdict = Verdict(examine(line, mark, approach, row, &PublishedBook));
            let worked = Worked {
                letter,
                place,
                row,
                verdict,
            };
            println!(rt; "{worked}")?;
        }
        Err(failure) => {
            let is_unchanged = row.iter().all(|byte| *byte == BLANK);
            let unworked = Unworked {
                failure,
                is_unchanged,
            };
            println!(rt; "{unworked}")?;
        }
    }
    Ok(())
}

// One case of working out, in a line.
fn tell_work_case(rt: &HostRuntime, case: WorkCase) -> anyhow::Result<()> {
    let WorkCase {
        sheet,
        mark,
        approach,
        size,
    } = case;
    let Variant {
        danger,
        drawn_to,
        slow_to,
    } = sheet;
    // no restriction is told as 0: what the program writes stays
    let slow_to = slow_to.unwrap_or(0);
    print!(rt;
        "danger {danger}, drawn to {drawn_to}, slow to {slow_to}, mark {mark}, approach {approach}, {size} bytes:"
    )?;
    tell_work(rt, &alfa_sheet(rt.alloc(), sheet)?.line(), case)
}

// One case of examining, in a line.
fn tell_examine_case(rt: &HostRuntime, line: &Line<'_>, case: ExamineCase) -> anyhow::Result<()> {
    let ExamineCase {
        mark,
        approach,
        row,
    } = case;
    let verdict = Verdict(examine(line, mark, approach, row, &PublishedBook));
    let codes = Codes(row);
    println!(rt; "mark {mark}, approach {approach}, row{codes}:{verdict}")?;
    Ok(())
}

// How many lines the table has, and how many of them the library answers so.
fn tell_table(rt: &HostRuntime) -> anyhow::Result<()> {
    let table = examples();
    let lines = table.len();
    let mut answered: usize = 0;
    // Each answer can fail for want of memory, so a chain would be no plainer than this loop.
    for example in table {
        if is_answered(rt.alloc(), example)? {
            answered = answered.saturating_add(1);
        }
    }
    println!(rt; "{lines} lines of the table, {answered} as the library answers")?;
    Ok(())
}

// All cases of the sheet.
pub fn tell_alfa(rt: &HostRuntime) -> anyhow::Result<()> {
    println!(rt; "Alfa, working out")?;
    for case in work_cases() {
        tell_work_case(rt, *case)?;
    }
    println!(rt; "Alfa, examining")?;
    let sheet = alfa_sheet(rt.alloc(), Variant::PLAIN)?;
    for case in examine_cases() {
        tell_examine_case(rt, &sheet.line(), *case)?;
    }
    println!(rt; "Alfa, what holds by the rules")?;
    tell_table(rt)
}
