//! Deployments: what an application declares, and how long its lists may be.
#![tactic(auto)]

pub mod deployment;
pub mod limits;
pub mod steps;

pub use deployment::{
    AnnotationType, Bean, Callback, Class, Constructor, Deployment, Disposer, Exception, Field,
    Initializer, InjectedField, Interceptor, Interface, Member, Method, Observer, Point,
    ProducerField, ProducerMethod, Script,
};
pub use steps::Steps;
