//! Laws of the definitions that the contracts cite.
ghost use Rattle.std.specs.Prelude.{◌↔◌, ℕ, List, IfOk, IsOk, IsTrue};
ghost use Rattle.cdi_deployment.specs.KnownNames.{KnowsNames};
ghost use Rattle.cdi_deployment.specs.Limits.{is_within};
ghost use Rattle.cdi_deploy.specs.Readable.{IsReadable};
ghost use Rattle.cdi_deploy.specs.Reading.{deployment_in};

/// A deployment is read exactly if there are not too many bytes, they are JSON, each number is a whole number of 64
/// bits, the value is of the form of a deployment, each text in the place of a name is one, the table has room for
/// the names, and no list is longer than its limit.
pub fn law_read()
    ensures { (bytes : List ℕ)
        → IsOk (deployment_in bytes) ↔ IsReadable bytes }
{}

/// No list of a deployment that was read is longer than its limit.
pub fn law_limits()
    ensures { (bytes : List ℕ)
        → IfOk (deployment_in bytes) (λ d. IsTrue (is_within d)) }
{}

/// Each name in the lists of a deployment that was read is a name of its table, so that [`cdi_base::Names::text`] may
/// be asked for its text.
pub fn law_known_names()
    ensures { (bytes : List ℕ) → IfOk (deployment_in bytes) KnowsNames }
{}
