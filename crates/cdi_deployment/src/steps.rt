//! The steps of a script, as they were written.
ghost use Rattle.std.specs.Prelude.{◌≡◌};
ghost use Rattle.serde_json.specs.View.{view};

use serde_json::Value;
use std::marker::Model;

/// The steps of a script as JSON, which contracts see as its data. What they mean is not looked at here.
#[derive(Drop)]
pub struct Steps {
    value: Value,
}

impl Model for Steps {
    ghost use Rattle.serde_json.specs.Data.{Data};
    ghost use Rattle.serde_json.specs.View.{view as data_of};
    ghost use Rattle.cdi_deployment.specs.DataCode.{coded_data};

    ghost Value = { Data };

    ghost coded = { coded_data };

    ghost view = { λ s. data_of s.value };
}

impl Steps {
    /// The steps that a value holds.
    pub fn new(value: Value) -> Steps
        ensures { result ≡ view value }
    {
        Steps { value }
    }

    /// The value that holds the steps.
    pub fn as_value(&self) -> &Value
        ensures { view result.now ≡ self.now }
    {
        &self.value
    }
}
