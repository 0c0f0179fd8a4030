// The five rules, each as it is worded. Interval 0 is the approach.
use super::known::{CODES, FOUR, byte_of};
use super::metres::{class_over, painted};
use anyhow::Context;
use books::BrakingBook;
use codes::{Class, Code, Rule};
use ground::worst_over;
use rows::StopLetter;
use rules::{Place, StopMark, limits_at};
use std::alloc::Global;
use trials::Sheet;

// The length of the longest train, in metres.
const TRAIN: u32 = 170;

// A sheet with the class of each of its metres, its first mark, and a book.
#[derive(Drop)]
pub struct Scene<'a, B> {
    pub sheet: Sheet,
    pub classes: Vec<Option<Class>>,
    pub mark: StopMark,
    pub book: &'a B,
}

impl<'a, B: BrakingBook> Scene<'a, B> {
    // The scene of a sheet before its first mark.
    pub fn new(heap: Global, sheet: Sheet, book: &'a B) -> anyhow::Result<Scene<'a, B>> {
        let mark = sheet
            .marks
            .first()
            .copied()
            .context("a sheet without a mark")?;
        Ok(Scene {
            classes: painted(heap, sheet.gradients.as_slice())?,
            mark,
            book,
            sheet,
        })
    }

    // Where interval j begins; the approach is the one metre before the start.
    fn begin_of(&self, j: usize) -> u32 {
        match j.checked_sub(1) {
            None => self.sheet.start.saturating_sub(1),
            Some(before) => self.sheet.end_of(before),
        }
    }

    // The place of the interval that the mark stands in, if there is one: begin < position <= end.
    pub fn held_in(&self) -> Option<usize> {
        let position = self.mark.position;
        (1..=self.sheet.intervals.len()).find(|j| self.begin_of(*j) < position
            && position <= self.sheet.end_of(*j))
    }

    // The class that counts from interval j to a position: from a train's length before its end.
    fn class_towards(&self, j: usize, to: u32) -> Class {
        let from = self.sheet.end_of(j).saturating_sub(TRAIN);
        class_over(self.classes.as_slice(), from, to)
    }

    // Whether a train with a code in interval j is no faster than another code, or can become so before a position by emergency
    // braking.
    fn is_down(&self, j: usize, code: Code, to: Code, position: u32) -> bool {
        match code {
            Code::Go(speed) if byte_of(code) > byte_of(to) => {
                let room = position.saturating_sub(self.sheet.end_of(j));
                self.book
                    .emergency(self.class_towards(j, position), speed, to)
                    .map_or(true, |metres| metres as u32 <= room)
            }
            _ => true,
        }
    }

    // Rule 1: no faster than a restriction that touches the interval.
    fn obeys_1(&self, j: usize, code: Code) -> bool {
        let begin = self.begin_of(j);
        let end = self.sheet.end_of(j);
        self.sheet
            .restrictions
            .iter()
            .filter(|slow| slow.from < self.mark.danger)
            .filter(|slow| slow.from < end && slow.to.saturating_add(TRAIN) > begin)
            .all(|slow| byte_of(code) <= byte_of(Code::Go(slow.value)))
    }

    // Rule 2: slow enough, or able to become so by emergency braking, before a restriction ahead.
    fn obeys_2(&self, j: usize, code: Code) -> bool {
        let end = self.sheet.end_of(j);
        self.sheet
            .restrictions
            .iter()
            .filter(|slow| end <= slow.from && slow.from < self.mark.danger)
            .all(|slow| self.is_down(j, code, Code::Go(slow.value), slow.from))
    }

    // Rule 3: able to stop before the mark by service braking.
    fn obeys_3(&self, j: usize, code: Code) -> bool {
        let Code::Go(speed) = code else {
            return true;
        };
        let position = self.mark.position;
        let room = position.saturating_sub(self.sheet.end_of(j));
        self.book.service(self.class_towards(j, position), speed) as u32 <= room
    }

    // Rule 4: able to stop before the danger point by emergency braking.
    fn obeys_4(&self, j: usize, code: Code) -> bool {
        self.is_down(j, code, Code::Stop, self.mark.danger)
    }

    // Rule 5, where interval j + 1 lies before the stop ground: no faster than its code, or able to become so within it.
    pub fn obeys_5(&self, j: usize, code: Code, next: Code) -> bool {
        self.is_down(j, code, next, self.sheet.end_of(j.saturating_add(1)))
    }

    // Whether a code of interval j obeys one of the rules 1 to 4; rule 5 asks for the next code too.
    fn obeys(&self, j: usize, code: Code, rule: Rule) -> bool {
        match rule {
            Rule::Touching => self.obeys_1(j, code),
            Rule::Ahead => self.obeys_2(j, code),
            Rule::Service => self.obeys_3(j, code),
            Rule::Stopping => self.obeys_4(j, code),
            Rule::Next => true,
        }
    }

    // The first of the rules 1 to 4 that a code breaks, if any.
    pub fn first_of_four(&self, j: usize, code: Code) -> Option<Rule> {
        FOUR.iter()
            .copied()
            .find(|rule| !self.obeys(j, code, *rule))
    }

    // The highest code of interval j that obeys one of the rules 1 to 4.
    fn highest_by(&self, j: usize, rule: Rule) -> Code {
        CODES
            .iter()
            .copied()
            .rev()
            .find(|code| self.obeys(j, *code, rule))
            .unwrap_or(Code::Stop)
    }

    // Whether the library's limits of interval j are the highest codes by the rules 1 to 4, each by itself.
    pub fn has_limits(&self, j: usize) -> bool {
        let place = Place {
            begin: self.begin_of(j) as u64,
            end: self.sheet.end_of(j) as u64,
            position: self.mark.position as u64,
            danger: self.mark.danger as u64,
        };
        let limits = limits_at(&self.sheet.line(), &place, self.book);
        limits.touching == self.highest_by(j, Rule::Touching)
            && limits.ahead == self.highest_by(j, Rule::Ahead)
            && limits.service == self.highest_by(j, Rule::Service)
            && limits.stopping == self.highest_by(j, Rule::Stopping)
    }

    // Whether the library's worst class of the stretch from interval j to the mark is that of its metres.
    pub fn has_class(&self, j: usize) -> bool {
        let from = self.begin_of(j);
        let to = self.mark.position;
        worst_over(self.sheet.gradients.as_slice(), from as u64, to as u64)
            == class_over(self.classes.as_slice(), from, to)
    }

    // Whether stop is the highest code of interval j that obeys the rules 1 to 4.
    fn is_stop_only(&self, j: usize) -> bool {
        CODES
            .iter()
            .skip(1)
            .all(|code| self.first_of_four(j, *code).is_some())
    }

    // The first interval of the stop ground: the longest run of such intervals up to that of the mark, from 1 on.
    pub fn first_of_ground(&self, held: usize) -> usize {
        (1..=held)
            .find(|first| (*first..=held).all(|j| self.is_stop_only(j)))
            .unwrap_or(held.saturating_add(1))
    }

    // The stop letter: Sf where the ground from a train's length before the stop ground to the mark is of class 10 or 11.
    pub fn letter(&self, first: usize) -> StopLetter {
        let from = self.begin_of(first).saturating_sub(TRAIN);
        if class_over(self.classes.as_slice(), from, self.mark.position) >= Class::C10 {
            StopLetter::Sf
        } else {
            StopLetter::Sv
        }
    }
}
