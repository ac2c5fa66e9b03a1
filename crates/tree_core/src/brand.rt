//! Brands of jobs.
use std::marker::Brand;

/// Which job a tree is for. Each call of a program picks it.
pub trait JobBrand {
    ghost use Rattle.run_model.specs.Programs.Jobs.{Job};

    ghost job: { Job };
}

impl JobBrand for Brand {
    ghost use Rattle.tree_core.specs.Brands.{no_job};

    ghost job = { no_job };
}
