// The prompt train: it brakes at the first metre.
ghost use Rattle.std.specs.Prelude.{◌≡◌};
ghost use Rattle.trains.specs.Braking.{Hears, Rolls};
ghost use Rattle.trains.specs.Latest.{Latest, Prompt};
ghost use Rattle.trains.specs.Start.{Started};
ghost use Rattle.trains.specs.Prompt.{prompt, prompt_ranged};

use crate::late::LateTrain;
use crate::train::Train;
use books::BrakingBook;
use codes::{Class, Code, Refusal};

// A train that does as the late train does, but is down to the code that it heard once it has rolled one metre.
#[derive(Clone, Copy)]
pub struct PromptTrain {
    late: LateTrain,
}

impl PromptTrain {
    // A train of a pace in km/h that has just heard stop on undrawn ground. A pace above 120 is refused by 14.
    pub fn new(pace: u8) -> Result<PromptTrain, Refusal>
        ensures { Started prompt pace result }
    {
        Ok(PromptTrain {
            late: LateTrain::new(pace)?,
        })
    }
}

// Its pace after a hearing is the highest promised one. After a rolling it is that too, but at the first metre no higher than the
// code that it heard.
impl Train for PromptTrain {
    ghost numbers = { prompt };

    ghost ranged = { prompt_ranged };

    fn pace(&self) -> u8 {
        self.late.pace()
    }

    fn hear<B: BrakingBook>(&mut self, book: &B, code: Code, class: Class)
        ensures hears { Hears (B.BrakingBook.emergencies book.now) code class (prompt self.old) (prompt self.new) }
        ensures latest { Latest (B.BrakingBook.emergencies book.now) (prompt self.old).pace (prompt self.new) }
    {
        self.late.hear(book, code, class);
    }

    #[tactic(auto, using(crate::proofs::FirstMetre::rolls_promptly, crate::proofs::FirstMetre::prompt_from_latest))]
    fn roll<B: BrakingBook>(&mut self, book: &B, class: Class)
        ensures rolls { Rolls (B.BrakingBook.emergencies book.now) class (prompt self.old) (prompt self.new) }
        ensures pace { Prompt (B.BrakingBook.emergencies book.now) (prompt self.old).pace (prompt self.new) }
    {
        self.late.roll(book, class);
        self.late.brake_at_first_metre();
    }
}
