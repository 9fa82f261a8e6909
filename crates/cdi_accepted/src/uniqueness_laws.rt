//! Laws of what a deployment determines, over the definitions alone. A call of one of these does nothing: its contract is the law.
ghost use Rattle.std.specs.Prelude.{◌≡◌, ℕ, List, Option};
ghost use Rattle.std.specs.List.{AllZip};
ghost use Rattle.cdi_beans.specs.Problems.{IsMadeOf};
ghost use Rattle.cdi_beans.specs.declared.bean.Bean.{Bean};
ghost use Rattle.cdi_beans.specs.declared.bean.BeanList.{BeanList};
ghost use Rattle.cdi_bodies.specs.declared.shape.Shape.{Shape};
ghost use Rattle.cdi_check.specs.Problems.{AreProblemsOf};
ghost use Rattle.cdi_deployment.specs.declared.deployment.Deployment.{Deployment};
ghost use Rattle.cdi_planner.specs.Tables.{PlanTables};
ghost use Rattle.cdi_problems.specs.declared.problem.Problem.{Problem};
ghost use Rattle.cdi_run_tables.specs.Planned.{IsPlanned};
ghost use Rattle.cdi_run_tables.specs.Parts.{PlannedBean};
ghost use Rattle.cdi_resolve.specs.BeanTables.{AreTablesOf};
ghost use Rattle.cdi_resolve.specs.declared.bean_tables.BeanTables.{BeanTables};

/// A deployment whose names and beans have no problem has one bean list (Jakarta CDI 4.0, *Beans*).
pub fn law_one_bean_list()
    ensures { (d : Deployment) (list other : BeanList)
        → IsMadeOf d list → IsMadeOf d other → list ≡ other }
{}

/// Such a deployment has one set of tables: which of its beans are enabled, and the chains of its interceptors, are determined
/// (Jakarta CDI 4.0, *Enabled and disabled beans*).
pub fn law_one_bean_tables()
    ensures { (d : Deployment) (tables other : BeanTables)
        → AreTablesOf d tables → AreTablesOf d other → tables ≡ other }
{}

/// By its tables each bean has one plan: the steps by which an instance is created, and what runs in its life (Jakarta CDI 4.0,
/// *Lifecycle of managed beans*).
pub fn law_one_plan_list()
    ensures { (tables : PlanTables) (beans : List Bean) (these those : List PlannedBean)
        → AllZip (IsPlanned tables) beans these
        → AllZip (IsPlanned tables) beans those → these ≡ those }
{}

/// A deployment with its registered bodies has one list of problems, so that what is told of it is determined (Jakarta CDI 4.0,
/// *Problems detected automatically by the container*).
pub fn law_one_problem_list()
    ensures { (d : Deployment) (shape_of : ℕ → Option Shape) (these those : List Problem)
        → AreProblemsOf d shape_of these → AreProblemsOf d shape_of those → these ≡ those }
{}
