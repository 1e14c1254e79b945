// Whole outlines.
use crate::fields::{may, need, no_others, object};
use crate::object::Object;
use crate::part::Part;
use crate::parts::Parts;
use crate::trouble::Trouble;
use crate::written::Written;
use serde_json::Value;
use std::alloc::Global;

impl Part for Written {
    ghost use Rattle.aso_outjson.specs.Objects.{outline_in};

    ghost reads = { outline_in };

    #[tactic(auto, unfolding(crate::specs::Objects::outline_in))]
    fn read(alloc: Global, value: &Value) -> Result<Written, Trouble> {
        object(alloc, value)?;
        let app = need(alloc, value, "app")?;
        let db = need(alloc, value, "db")?;
        let dims = need(alloc, value, "dimensions")?;
        let attrs = may(alloc, value, "attributes", Parts::of(Vec::new(alloc)))?;
        no_others(alloc, value, Object::Outline)?;
        Ok(Written {
            app,
            db,
            dims,
            attrs,
        })
    }
}
