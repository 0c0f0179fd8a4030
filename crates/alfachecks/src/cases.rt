// Calls on the sheet Alfa that are answered or refused as was worked out by hand.
use alfa::Variant;

// A row to be worked out.
#[derive(Clone, Copy)]
pub struct WorkCase {
    pub sheet: Variant,
    pub mark: u16,
    pub approach: u8,
    // how many bytes the row has
    pub size: usize,
}

// A row to be examined on the unchanged sheet.
#[derive(Clone, Copy)]
pub struct ExamineCase {
    pub mark: u16,
    pub approach: u8,
    pub row: &'static [u8],
}

#[rattlefmt::skip]
const WORK: [WorkCase; 14] = [
    WorkCase { sheet: Variant::PLAIN, mark: 1, approach: 100, size: 4 },
    WorkCase { sheet: Variant::PLAIN, mark: 1, approach: 120, size: 4 },
    WorkCase { sheet: Variant::ROOM_FOR_50, mark: 1, approach: 100, size: 4 },
    WorkCase { sheet: Variant::NO_ROOM_FOR_50, mark: 1, approach: 100, size: 4 },
    WorkCase { sheet: Variant::SLOW, mark: 1, approach: 60, size: 4 },
    WorkCase { sheet: Variant::SLOW, mark: 1, approach: 70, size: 4 },
    WorkCase { sheet: Variant::SLOW_LONGER, mark: 1, approach: 60, size: 4 },
    WorkCase { sheet: Variant::SLOW_LONGER, mark: 1, approach: 70, size: 4 },
    WorkCase { sheet: Variant::DRAWN_SHORT, mark: 1, approach: 100, size: 4 },
    WorkCase { sheet: Variant::DRAWN_ENOUGH, mark: 1, approach: 100, size: 4 },
    WorkCase { sheet: Variant::PLAIN, mark: 2, approach: 100, size: 4 },
    WorkCase { sheet: Variant::PLAIN, mark: 1, approach: 45, size: 4 },
    WorkCase { sheet: Variant::PLAIN, mark: 1, approach: 100, size: 3 },
    WorkCase { sheet: Variant::PLAIN, mark: 1, approach: 100, size: 5 },
];

#[rattlefmt::skip]
const EXAMINE: [ExamineCase; 8] = [
    ExamineCase { mark: 1, approach: 100, row: &[80, 60, 50, 0] },
    ExamineCase { mark: 1, approach: 100, row: &[80, 70, 50, 0] },
    ExamineCase { mark: 1, approach: 100, row: &[80, 60, 60, 0] },
    ExamineCase { mark: 2, approach: 100, row: &[80, 60, 50, 0] },
    ExamineCase { mark: 1, approach: 45, row: &[80, 60, 50, 0] },
    ExamineCase { mark: 1, approach: 100, row: &[80, 60, 50] },
    ExamineCase { mark: 1, approach: 100, row: &[80, 60, 50, 0, 0] },
    ExamineCase { mark: 1, approach: 100, row: &[80, 60, 45, 0] },
];

// All cases of working out.
pub fn work_cases() -> &'static [WorkCase] {
    &WORK
}

// All cases of examining.
pub fn examine_cases() -> &'static [ExamineCase] {
    &EXAMINE
}
