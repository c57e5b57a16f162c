//! The direction in which a picture is drawn.

/// Where the children of a node are drawn.
#[derive(Clone, Copy, Debug, Eq, PartialEq)]
pub enum RankDir {
    /// Below the node.
    TopToBottom,
    /// Above the node.
    BottomToTop,
    /// To the right of the node.
    LeftToRight,
    /// To the left of the node.
    RightToLeft,
}
