// Why a judge says no. A judge that this library names gives the first of these that holds.

#[derive(Clone, Copy, PartialEq, Eq, Debug)]
pub enum JudgeCause {
    TooManyRows = 1,
    // A voucher of wrong length, or a number of it out of range.
    BadVoucher = 2,
    // A row that this judge does not take.
    BadShape = 3,
    UnknownsLeft = 4,
    // The constant that is left is no conflict.
    NoConflict = 5,
}
