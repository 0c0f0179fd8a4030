// The ground, metre by metre.
use codes::Class;
use ground::Entry;
use std::alloc::Global;

// How many metres are painted: more than the sheets have.
const SIZE: usize = 6_000;

// Paints the metres of a gradient that have no steeper class yet.
fn paint(classes: &mut [Option<Class>], gradient: &Entry<Class>) {
    let metres = classes
        .iter_mut()
        .take(gradient.to as usize)
        .skip(gradient.from as usize);
    for class in metres {
        *class = (*class).max(Some(gradient.value));
    }
}

// The class of each metre from 0 on; none where nothing is drawn.
pub fn painted(heap: Global, gradients: &[Entry<Class>]) -> anyhow::Result<Vec<Option<Class>>> {
    let mut classes = vec![in heap; None; SIZE]?;
    for gradient in gradients {
        paint(classes.as_mut_slice(), gradient);
    }
    Ok(classes)
}

// The class of a metre: 11 where nothing is drawn.
fn class_at(classes: &[Option<Class>], metre: u32) -> Class {
    classes
        .get(metre as usize)
        .copied()
        .flatten()
        .unwrap_or(Class::C11)
}

// The steepest class of the metres `from` to `to` - 1; 11 where there are none.
pub fn class_over(classes: &[Option<Class>], from: u32, to: u32) -> Class {
    (from..to)
        .map(|metre| class_at(classes, metre))
        .max()
        .unwrap_or(Class::C11)
}
