// What a kiosk asks for: the node where the way begins, by its name, and the path that the labels on the way must fit.
use crate::coded::CodedPath;

#[derive(Clone, Copy)]
pub struct Query {
    pub top: u64,
    pub path: CodedPath,
}
