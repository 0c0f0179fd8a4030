// The search for the highest code, from the highest speed down.
ghost use Rattle.std.specs.Prelude.{◌≡◌, Bool};
ghost use Rattle.codes.specs.declared.speeds.Speed.{Speed};
ghost use Rattle.rules.specs.Searching.{highest, Top};

use codes::{Code, Speed};

// A test that each of the nine speeds passes or fails: a trait, since a public call takes no closure.
pub trait SpeedTest {
    // Whether a speed passes.
    ghost passed: { Self → Speed → Bool };

    fn passes(&self, speed: Speed) -> bool
        ensures { result ≡ passed self.now speed };
}

// The nine speeds are tried from the highest down, and the first that passes breaks the search; stop where none does. A loop and not a
// chain: that the code comes by a break is a rule of the project.
#[tactic(auto, using(crate::proofs::Descent::found_in_all))]
fn tried_downward<T: SpeedTest>(test: &T) -> Code
    ensures { result ≡ highest (T.SpeedTest.passed test.now) }
{
    let mut rest = Speed::ALL.as_slice();
    loop {
        let Some((speed, lower)) = rest.split_last() else {
            break Code::Stop;
        };
        if test.passes(*speed) {
            break Code::Go(*speed);
        }
        rest = lower;
    }
}

// The highest speed that passes, or stop where none does.
#[tactic(auto, using(crate::proofs::Descent::top_highest))]
pub fn highest_passing<T: SpeedTest>(test: &T) -> Code
    ensures value { result ≡ highest (T.SpeedTest.passed test.now) }
    ensures top { Top (T.SpeedTest.passed test.now) result }
{
    tried_downward(test)
}
