// The fields that records and requests are made of (R3.2, R4.1).

// How many bytes a field has: those of its head, a number, and behind them so many for each unit that the head's last byte counts. A plain number
// has no units, a mark no bytes at all.
#[derive(Clone, Copy)]
pub struct Field {
    pub head: usize,
    pub unit: usize,
}
