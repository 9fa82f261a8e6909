//! A law of accepted deployments, over the definitions alone.
ghost use Rattle.std.specs.Prelude.{ℕ, [], Option};
ghost use Rattle.cdi_bodies.specs.declared.shape.Shape.{Shape};
ghost use Rattle.cdi_check.specs.Accepted.{IsAccepted};
ghost use Rattle.cdi_check.specs.Problems.{AreProblemsOf};
ghost use Rattle.cdi_deployment.specs.declared.deployment.Deployment.{Deployment};

/// A deployment without problems has what its container relies on: what is live has its bodies, whose shapes name what is there, and
/// each live injection point resolves to one bean.
pub fn law_accepted()
    ensures { (d : Deployment) (shape_of : ℕ → Option Shape) → AreProblemsOf d shape_of []
        → IsAccepted d shape_of }
{}
