// A braking book over a table of figures that the caller lends.
ghost use Rattle.std.specs.Prelude.{◌≡◌, true};
ghost use Rattle.laws.specs.Judged.{fits};
ghost use Rattle.books.specs.Lent.{figures_over};

mod lending;

// A book over a lent table of 594 figures in writing order; over the published figures where none is lent. Whatever it is
// over is a book: its figures are in range and keep the laws.
#[derive(Clone, Copy, Debug)]
pub struct FileBook<'a> {
    table: Option<&'a [u16]>,
    ghost sound: { fits (figures_over table) ≡ true },
}
