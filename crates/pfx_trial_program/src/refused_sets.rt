//! Set files that are refused, for the others.

use pfx_fault::Fault;

/// A set file that is refused, and the first fault in it.
pub static REFUSED_SETS: [(&str, Fault); 12] = [
    ("workers = ", Fault::BadSet),
    ("workers 2\n", Fault::BadSet),
    ("workers = 1 2", Fault::BadSet),
    ("workers = 2\n", Fault::NoTasks),
    (
        "workers = 0\ntask = [{name = \"x\", e = 1, p = 2}]\n",
        Fault::BadWorkers,
    ),
    (
        "workers = 65\ntask = [{name = \"x\", e = 1, p = 2}]\n",
        Fault::BadWorkers,
    ),
    (
        "workers = -1\ntask = [{name = \"x\", e = 1, p = 2}]",
        Fault::BadWorkers,
    ),
    (
        "workers = 1\ntask = [{name = \"x\", e = 1, p = 2}, {name = \"y\", e = 3, p = 3}]\n",
        Fault::BadWeight { task: 1 },
    ),
    (
        "workers = 1\ntask = [{name = \"x\", e = 1, p = 2}, {name = \"y\", e = 2, p = 2}]",
        Fault::BadWeight { task: 1 },
    ),
    (
        "workers = 1\ntask = [{name = \"x\", e = 1, p = 1024}, {name = \"y\", e = 1, p = 1025}]\n",
        Fault::HyperperiodTooLarge { task: 1 },
    ),
    (
        "workers = 1\ntask = [{name = \"x\", e = 1, p = 1048576}, {name = \"y\", e = 1, p = 3}]",
        Fault::HyperperiodTooLarge { task: 1 },
    ),
    (
        "workers = 1\ntask = [{name = \"x\", e = 1, p = 2}, {name = \"y\", e = 2, p = 3}]\n",
        Fault::Overload,
    ),
];
