use crate::trouble::Trouble;
use serde_json::Value;
use std::alloc::Global;

/// What a part of a JSON value may stand for.
pub trait Part {
    ghost use Rattle.serde_json.specs.Data.{Data};
    ghost use Rattle.serde_json.specs.View.{view};
    ghost use Rattle.aso_outjson.specs.Fields.{Found};
    ghost use Rattle.aso_outjson.specs.Gives.{Gives};

    ghost reads: { Data → Found Self };

    fn read(alloc: Global, value: &Value) -> Result<Self, Trouble>
        ensures { Gives result (reads (view value.now)) };
}
