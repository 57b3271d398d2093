// A step of a path expression, over what its names are: names as written, or label codes.
// Not an `Option`, which would be no plainer: `*` is a test too, and no missing one.
#[derive(Clone, Copy)]
pub enum Test<L> {
    // `*`, which every label passes.
    Star,
    Name(L),
}

// `/` and a test, or `//` and a test, which leaves zero or more labels in front of the one that it tests.
// `deep` is a property of the step, and doesn't say whether the test counts.
#[derive(Clone, Copy)]
pub struct Step<L> {
    pub deep: bool,
    pub test: Test<L>,
}
