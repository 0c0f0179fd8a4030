// The late train is made, hears and rolls: its pace is the highest that the braking promise allows.
ghost use Rattle.std.specs.Prelude.{◌≡◌, ◌≤◌};
ghost use Rattle.std.specs.List.{find};
ghost use Rattle.codes.specs.Speeds.{codes};
ghost use Rattle.trains.specs.Braking.{Hears, Rolls};
ghost use Rattle.trains.specs.Latest.{at_pace, down_to, prompt_pace, Latest};
ghost use Rattle.trains.specs.Start.{Started};
ghost use Rattle.trains.specs.Late.{late, late_ranged};

use super::LateTrain;
use crate::lowest::lowest_code;
use crate::train::Train;
use books::BrakingBook;
use codes::{Class, Code, Refusal, Speed};
use ground::Graded;

impl LateTrain {
    // A train of a pace in km/h that has just heard stop on undrawn ground. A pace above 120 is refused by 14.
    pub fn new(pace: u8) -> Result<LateTrain, Refusal>
        ensures { Started late pace result }
    {
        if pace > 120 {
            return Err(Refusal::Fast);
        }
        Ok(LateTrain {
            pace,
            carried: pace,
            heard: Code::Stop,
            rolled: 0,
            gradient: Class::UNDRAWN,
        })
    }

    // Whether the train, which came with a speed, has to be down to a code: one that is below the speed and not below the code
    // heard, and to which it has rolled the emergency distance.
    fn is_due_at<B: BrakingBook>(&self, book: &B, from: Speed, to: Code) -> bool
        ensures { result ≡ down_to (B.BrakingBook.emergencies book.now) (late self.now) from to }
    {
        to >= self.heard
            && book
                .emergency(self.gradient, from, to)
                .is_ok_and(|metres| metres <= self.rolled)
    }

    // The lowest code that the train, which came with a speed, has to be down to; none where there is none.
    fn lowest_due<B: BrakingBook>(&self, book: &B, from: Speed) -> Option<Code>
        ensures { result ≡ find (down_to (B.BrakingBook.emergencies book.now) (late self.now) from) codes }
    {
        Code::ALL
            .iter()
            .copied()
            .find(|&to| self.is_due_at(book, from, to))
    }

    // The highest pace in km/h that is promised where the train's own pace is the one before.
    fn latest_pace<B: BrakingBook>(&self, book: &B) -> u8
        ensures latest { Latest (B.BrakingBook.emergencies book.now) self.now.pace (at_pace (late self.now) result) }
        ensures within { result ≤ 120 }
    {
        let most = self.pace.max(self.heard.byte());
        let Some(Code::Go(from)) = lowest_code(self.carried) else {
            return most;
        };
        self.lowest_due(book, from)
            .map_or(most, |code| most.min(code.byte()))
    }

    // At the first metre since the train heard its code, lowers a pace above that code to it.
    pub(crate) fn brake_at_first_metre(&mut self)
        ensures { late self.new ≡ at_pace (late self.old) (prompt_pace (late self.old)) }
    {
        if self.rolled == 1 {
            self.pace = self.pace.min(self.heard.byte());
        }
    }
}

// After each hearing and each rolling its pace is the highest promised one. So it takes a higher code at once, and brakes to a
// lower one only where the emergency distance is rolled.
impl Train for LateTrain {
    ghost numbers = { late };

    ghost ranged = { late_ranged };

    fn pace(&self) -> u8 {
        self.pace
    }

    fn hear<B: BrakingBook>(&mut self, book: &B, code: Code, class: Class)
        ensures hears { Hears (B.BrakingBook.emergencies book.now) code class (late self.old) (late self.new) }
        ensures latest { Latest (B.BrakingBook.emergencies book.now) self.old.pace (late self.new) }
    {
        self.carried = self.pace;
        self.heard = code;
        self.rolled = 0;
        self.gradient = class;
        self.pace = self.latest_pace(book);
    }

    fn roll<B: BrakingBook>(&mut self, book: &B, class: Class)
        ensures rolls { Rolls (B.BrakingBook.emergencies book.now) class (late self.old) (late self.new) }
        ensures latest { Latest (B.BrakingBook.emergencies book.now) self.old.pace (late self.new) }
    {
        self.rolled = (self.rolled + 1).min(4095);
        self.gradient = self.gradient.worse(class);
        self.pace = self.latest_pace(book);
    }
}
