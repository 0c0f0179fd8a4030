// Drawing a small sheet at random, so that edges meet often: entries begin and end at the ends of intervals and a metre beside them, a
// train's length before them, and at the mark and its danger point.
ghost use Rattle.std.specs.Prelude.{◌<◌, ◌≤◌};

use super::draws::Draws;
use super::sheets::Sheet;
use codes::{Class, Speed};
use ground::Entry;
use rules::{Interval, StopMark};
use std::alloc::Global;

// The most intervals before and with the mark's.
const MOST: u32 = 3;

// A sheet that is being drawn, with intervals of at most `scale` metres.
#[derive(Drop)]
struct Drawing<'a> {
    sheet: Sheet,
    draws: &'a mut Draws,
    scale: u32,
}

// Where a sheet starts: at 0, at a train's length, below it, or above it.
fn drawn_start(draws: &mut Draws) -> u32 {
    match draws.below(8) {
        0 => 0,
        1 => 170,
        2 => draws.below(170),
        _ => draws.below(300).saturating_add(171),
    }
}

impl Drawing<'_> {
    // A length in metres, from 0 on and below so many times the scale.
    fn drawn_length(&mut self, times: u32) -> u32 {
        let limit = self.scale.saturating_mul(times);
        self.draws.below(limit)
    }

    // Draws intervals.
    fn draw_intervals(&mut self, count: u32) -> anyhow::Result<()> {
        for _ in 0..count {
            let length = self.drawn_length(1).saturating_add(1);
            self.sheet.intervals.push(Interval { number: 1, length })?;
        }
        Ok(())
    }

    // A position in the n-th interval, behind its begin: at its end, in its first metre, or anywhere.
    fn drawn_position(&mut self, n: usize) -> u32 {
        let begin = self.sheet.end_of(n.saturating_sub(1));
        let end = self.sheet.end_of(n);
        match self.draws.below(3) {
            0 => end,
            1 => begin.saturating_add(1),
            _ => end.saturating_sub(self.draws.below(end.saturating_sub(begin))),
        }
    }

    // The danger point of a mark: at it, beyond it, and seldom before it.
    fn drawn_danger(&mut self, position: u32) -> u32 {
        match self.draws.below(16) {
            0 => position.saturating_sub(self.drawn_length(1)),
            1..=4 => position,
            _ => position.saturating_add(self.drawn_length(1)),
        }
    }

    // Draws mark 1 in the n-th interval.
    fn draw_mark(&mut self, n: usize) -> anyhow::Result<()> {
        let position = self.drawn_position(n);
        let danger = self.drawn_danger(position);
        self.sheet.marks.push(StopMark {
            number: 1,
            position,
            danger,
        })?;
        Ok(())
    }

    // The position or the danger point of the mark.
    fn drawn_target(&mut self) -> u32 {
        let Some(mark) = self.sheet.marks.first().copied() else {
            return 0;
        };
        match self.draws.below(2) {
            0 => mark.position,
            _ => mark.danger,
        }
    }

    // A position at which an entry may begin or end.
    fn drawn_spot(&mut self) -> u32 {
        let n = self.draws.below(5);
        let end = self.sheet.end_of(n as usize);
        match self.draws.below(8) {
            0 => end,
            1 => end.saturating_add(1),
            2 => end.saturating_sub(1),
            3 => end.saturating_sub(170),
            4 => self.drawn_target(),
            _ => {
                let limit = self.sheet.end_of(4).saturating_add(self.scale);
                self.draws.below(limit)
            }
        }
    }

    // Where an entry begins and where it ends: some metres on, or at a spot, which may lie before its begin.
    fn drawn_stretch(&mut self) -> (u32, u32) {
        let from = self.drawn_spot();
        let to = match self.draws.below(3) {
            0 => self.drawn_spot(),
            _ => from.saturating_add(self.drawn_length(2)).saturating_add(1),
        };
        (from, to)
    }

    // One of the first `steepest` classes.
    fn drawn_class(&mut self, steepest: u32) -> Class
        requires some { 0 < steepest }
        requires within { steepest ≤ 11 }
    {
        Class::ALL[self.draws.below(steepest) as usize]
    }

    // One of the nine speeds. As one of the classes: a line each.
    fn drawn_speed(&mut self) -> Speed {
        Speed::ALL[self.draws.below(9) as usize]
    }

    // Draws gradients: mostly one over all of the sheet, and up to three over parts of it, which may overlap and leave ground undrawn.
    fn draw_gradients(&mut self) -> anyhow::Result<()> {
        let steepest = self.draws.below(11).saturating_add(1);
        if self.draws.below(6) > 0 {
            let to = self.sheet.end_of(4).saturating_add(self.scale);
            let value = self.drawn_class(steepest);
            self.sheet.gradients.push(Entry { from: 0, to, value })?;
        }
        for _ in 0..self.draws.below(4) {
            let (from, to) = self.drawn_stretch();
            let value = self.drawn_class(steepest);
            self.sheet.gradients.push(Entry { from, to, value })?;
        }
        Ok(())
    }

    // Draws up to three restrictions.
    fn draw_restrictions(&mut self) -> anyhow::Result<()> {
        for _ in 0..self.draws.below(4) {
            let (from, to) = self.drawn_stretch();
            let value = self.drawn_speed();
            self.sheet.restrictions.push(Entry { from, to, value })?;
        }
        Ok(())
    }
}

// A sheet of up to four intervals, of at most `scale` metres each, with mark 1 in one of the first three.
pub fn drawn_sheet(heap: Global, draws: &mut Draws, scale: u32) -> anyhow::Result<Sheet> {
    let sheet = Sheet::new(heap, drawn_start(draws));
    let mut drawing = Drawing {
        sheet,
        draws,
        scale,
    };
    let held = drawing.draws.below(4).saturating_add(1).min(MOST);
    let count = held.saturating_add(drawing.draws.below(2));
    drawing.draw_intervals(count)?;
    drawing.draw_mark(held as usize)?;
    drawing.draw_gradients()?;
    drawing.draw_restrictions()?;
    Ok(drawing.sheet)
}
