ghost use Rattle.std.specs.Prelude.{◌≡◌};
ghost use Rattle.aso_sheettext.specs.Reading.{is_in_outline, is_before_axes, is_at_rows, is_at_end};

/// How far the reading of a sheet has come.
#[derive(Clone, Copy, Debug)]
pub(crate) enum Stage {
    InOutline,
    InCells,
    AtRows,
    AtEnd,
}

impl Stage {
    pub(crate) fn is_in_outline(self) -> bool
        ensures { result ≡ is_in_outline self }
    {
        matches!(self, Stage::InOutline)
    }

    pub(crate) fn is_before_axes(self) -> bool
        ensures { result ≡ is_before_axes self }
    {
        matches!(self, Stage::InOutline | Stage::InCells)
    }

    pub(crate) fn is_at_rows(self) -> bool
        ensures { result ≡ is_at_rows self }
    {
        matches!(self, Stage::AtRows)
    }

    pub(crate) fn is_at_end(self) -> bool
        ensures { result ≡ is_at_end self }
    {
        matches!(self, Stage::AtEnd)
    }
}
