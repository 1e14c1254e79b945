// Functions of a member.
ghost use Rattle.std.specs.Prelude.{◌≡◌};
ghost use Rattle.aso_mdx.specs.Shapes.{shape_of};

use crate::query::SetText;
use aso_num::{List, Text};

/// A function that gives a set of a member.
#[derive(Clone, Copy, Debug, PartialEq, Eq)]
pub enum Shape {
    Children,
    Members,
    Descendants,
    Leaves,
}

pub fn applied(shape: Shape, path: List<Text>) -> SetText
    ensures { result ≡ shape_of shape path }
{
    match shape {
        Shape::Children => SetText::Children(path),
        Shape::Members => SetText::Members(path),
        Shape::Descendants => SetText::Descendants(path),
        Shape::Leaves => SetText::Leaves(path),
    }
}
