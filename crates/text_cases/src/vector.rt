// What is compared.

// What is shown, by which name, and the text that is expected.
#[derive(Drop)]
pub(crate) struct Vector<T> {
    pub(crate) what: &'static str,
    pub(crate) shown: T,
    pub(crate) expected: &'static str,
}
