use aso_axes::AxisTuples;
use aso_num::List;
use aso_outline::Tuple;

/// What a query asks. The cells stand row by row, and within a row column by column. A query without rows has one row, whose tuple
/// names no dimension. Whether the columns, or the rows, whose values are all missing are printed too.
#[derive(Debug, Drop)]
pub struct GridPlan {
    pub columns: AxisTuples,
    pub rows: AxisTuples,
    pub cells: List<Tuple>,
    pub empty_columns: bool,
    pub empty_rows: bool,
}
