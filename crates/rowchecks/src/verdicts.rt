// What the rules say of each code of a scene, and of rows.
use super::known::CODES;
use super::plain::Scene;
use books::BrakingBook;
use codes::{Code, Rule, Speed};
use rows::{Break, StopLetter};
use std::alloc::Global;
use std::iter::once;
use trials::Sheet;

// The codes of a scene, each tried once before each next code.
#[derive(Drop)]
pub struct Verdicts<'a, B> {
    pub scene: Scene<'a, B>,
    // how many codes a row has behind that of the approach, and the first interval of the stop ground
    pub held: usize,
    pub first: usize,
    pub letter: StopLetter,
    // the first rule that is broken, if any, by interval, code and next code
    broken: Vec<[[Option<Rule>; 10]; 10]>,
}

// The first rule that each code breaks in interval j, if any, by code and next code; the stop ground begins with interval `first`.
fn tried<B: BrakingBook>(scene: &Scene<'_, B>, first: usize, j: usize) -> [[Option<Rule>; 10]; 10] {
    let is_before_ground = j.saturating_add(1) < first;
    CODES.map(|code| {
        let four = scene.first_of_four(j, code);
        CODES.map(|next| {
            let is_five = four.is_none() && is_before_ground && !scene.obeys_5(j, code, next);
            if is_five { Some(Rule::Next) } else { four }
        })
    })
}

// The place of a code among the ten.
fn rank(code: Code) -> usize {
    CODES.iter().position(|known| *known == code).unwrap_or(0)
}

impl<'a, B: BrakingBook> Verdicts<'a, B> {
    // Tries every code in every interval from the approach to that of the sheet's first mark, by a book; only in the approach where
    // the mark stands in no interval.
    pub fn new(heap: Global, sheet: Sheet, book: &'a B) -> anyhow::Result<Verdicts<'a, B>> {
        let scene = Scene::new(heap, sheet, book)?;
        let held = scene.held_in().unwrap_or(0);
        let first = scene.first_of_ground(held);
        let letter = scene.letter(first);
        let broken = (0..=held).map(|j| tried(&scene, first, j)).collect(heap)?;
        Ok(Verdicts {
            scene,
            held,
            first,
            letter,
            broken,
        })
    }

    // The first rule that a code breaks in interval j before the next code, if any.
    fn rule(&self, j: usize, code: Code, next: Code) -> Option<Rule> {
        let by_code = self.broken.get(j)?;
        let by_next = by_code.get(rank(code))?;
        by_next.get(rank(next)).copied().flatten()
    }

    // The verdict on a row at an approach code: its first break, if any.
    pub fn verdict(&self, approach: Speed, row: &[Code]) -> Result<(), Break> {
        once(Code::Go(approach))
            .chain(row.iter().copied())
            .enumerate()
            .try_for_each(|(interval, code)| {
                let next = row.get(interval).copied().unwrap_or(Code::Stop);
                match self.rule(interval, code, next) {
                    None => Ok(()),
                    Some(rule) => Err(Break { interval, rule }),
                }
            })
    }
}
