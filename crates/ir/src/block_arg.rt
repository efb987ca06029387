use crate::entities::Value;

// An argument of a block call: a value, or a mark for what a call that may throw hands to its successor.
#[derive(Clone, Copy, PartialEq, Eq)]
pub enum BlockArg {
    Value(Value),
    TryCallRet(u32),
    TryCallExn(u32),
}
