/// A message in flight (docs/rules.md, "Messages in flight"): its number, its receiver and the receiver's node.
#[derive(Clone, Copy, Debug, PartialEq, Eq)]
pub struct Letter {
    pub message: u32,
    pub who: u32,
    pub node: u32,
}
