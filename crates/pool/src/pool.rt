use store::store::Store;

// Numbered lists in blocks of lent cells. Its calls ask nothing.
#[derive(Drop)]
pub struct Pool<'a, T> {
    pub(crate) store: Store<'a, T>,
}
