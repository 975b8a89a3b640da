// What a command hands back.
use model::{Answer, Table};

#[derive(Clone, Copy)]
pub struct Served {
    pub answer: Answer,
    pub table: Table,
}
