// Books made by a formula, with distances so short that small sheets have many rows.
use codes::{Class, Code, Speed};
use std::alloc::Global;

// So many metres for each km/h of difference, in hundredths of a metre: on class 0, and more for each class.
#[derive(Clone, Copy)]
pub struct Slope {
    pub flat: u32,
    pub steep: u32,
}

// A formula for a book's figures. The intervals of its sheets are at most `scale` metres long.
#[derive(Clone, Copy)]
pub struct Recipe {
    pub name: &'static str,
    pub scale: u32,
    pub emergency: Slope,
    pub service: Slope,
}

#[rattlefmt::skip]
const RECIPES: [Recipe; 6] = [
    // every distance is 1 m
    Recipe { name: "one metre", scale: 3, emergency: Slope { flat: 0, steep: 0 }, service: Slope { flat: 0, steep: 0 } },
    // up to 19 m
    Recipe { name: "tiny", scale: 24, emergency: Slope { flat: 3, steep: 1 }, service: Slope { flat: 4, steep: 1 } },
    // emergency up to 91 m, and service takes longer
    Recipe { name: "short", scale: 90, emergency: Slope { flat: 20, steep: 5 }, service: Slope { flat: 25, steep: 8 } },
    // the class counts for nothing
    Recipe { name: "level", scale: 60, emergency: Slope { flat: 40, steep: 0 }, service: Slope { flat: 45, steep: 0 } },
    // the class counts for much
    Recipe { name: "steep", scale: 120, emergency: Slope { flat: 0, steep: 15 }, service: Slope { flat: 0, steep: 17 } },
    // service takes less than emergency, so that the danger point binds
    Recipe { name: "soon", scale: 50, emergency: Slope { flat: 30, steep: 2 }, service: Slope { flat: 10, steep: 1 } },
];

// All recipes.
pub fn recipes() -> &'static [Recipe] {
    &RECIPES
}

impl Slope {
    // The distance from a code down to a lower one on a class, in metres: 1 m, and so much for each km/h.
    fn metres(self, class: Class, from: Code, to: Code) -> u16 {
        let hundredths = self
            .steep
            .saturating_mul(class.number() as u32)
            .saturating_add(self.flat);
        let kmh = from.byte().saturating_sub(to.byte()) as u32;
        (kmh.saturating_mul(hundredths) / 100).min(4_094) as u16 + 1
    }
}

impl Recipe {
    // The figures of a class in writing order: emergency by from and to, then service by from.
    fn put_class(&self, table: &mut Vec<u16>, class: Class) -> anyhow::Result<()> {
        for from in Code::ALL {
            let lower = Code::ALL.into_iter().take_while(|to| *to < from);
            table.extend(lower.map(|to| self.emergency.metres(class, from, to)))?;
        }
        let speeds = Speed::ALL.into_iter().map(Code::Go);
        table.extend(speeds.map(|from| self.service.metres(class, from, Code::Stop)))?;
        Ok(())
    }

    // The 594 figures in writing order.
    pub fn table(&self, heap: Global) -> anyhow::Result<Vec<u16>> {
        let mut table = Vec::new(heap);
        for class in Class::ALL {
            self.put_class(&mut table, class)?;
        }
        Ok(table)
    }
}
