use rows::store::Rows;

// A table as a user may write one: it hands all on to another, and could count or log what is asked.
#[derive(Drop)]
pub struct HandedOn<'a> {
    pub table: Rows<'a>,
}
