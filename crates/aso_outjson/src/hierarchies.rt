// Hierarchies, and the dimensions that have them.
use crate::fields::{may, need, no_others, object};
use crate::object::Object;
use crate::part::Part;
use crate::trouble::Trouble;
use crate::written::{WrittenAttr, WrittenDim, WrittenHier};
use aso_outline::Aggregate;
use serde_json::Value;
use std::alloc::Global;

impl Part for WrittenHier {
    ghost use Rattle.aso_outjson.specs.Objects.{hier_in};

    ghost reads = { hier_in };

    #[tactic(auto, unfolding(crate::specs::Objects::hier_in))]
    fn read(alloc: Global, value: &Value) -> Result<WrittenHier, Trouble> {
        object(alloc, value)?;
        let kind = need(alloc, value, "kind")?;
        let root = need(alloc, value, "root")?;
        no_others(alloc, value, Object::Hierarchy)?;
        Ok(WrittenHier { kind, root })
    }
}

impl Part for WrittenDim {
    ghost use Rattle.aso_outjson.specs.Objects.{dim_in};

    ghost reads = { dim_in };

    #[tactic(auto, unfolding(crate::specs::Objects::dim_in))]
    fn read(alloc: Global, value: &Value) -> Result<WrittenDim, Trouble> {
        object(alloc, value)?;
        let name = need(alloc, value, "name")?;
        let aggregate = may(alloc, value, "aggregate", Aggregate::All)?;
        let hiers = need(alloc, value, "hierarchies")?;
        no_others(alloc, value, Object::Dimension)?;
        Ok(WrittenDim {
            name,
            aggregate,
            hiers,
        })
    }
}

impl Part for WrittenAttr {
    ghost use Rattle.aso_outjson.specs.Objects.{attr_in};

    ghost reads = { attr_in };

    #[tactic(auto, unfolding(crate::specs::Objects::attr_in))]
    fn read(alloc: Global, value: &Value) -> Result<WrittenAttr, Trouble> {
        object(alloc, value)?;
        let name = need(alloc, value, "name")?;
        let base = need(alloc, value, "base")?;
        let root = need(alloc, value, "root")?;
        no_others(alloc, value, Object::Attribute)?;
        Ok(WrittenAttr { name, base, root })
    }
}
