// Runs of the daemon, in each of which something happens once.

use super::driver::Case;
use super::plan::Act::{Connects, Ended, Failed, First, Killed, Link, Said, Second, Starts, Took};
use super::plan::{ALL, Fails, Held};

// A line with a route for the neighbour.
const ROUTE: &[u8] = b"announce route 10.0.0.0/24 next-hop 192.0.2.1\n";

// A session of a neighbour for which there is no route.
const NO_ROUTE: &[(&str, usize)] = &[("OKEC", 114)];

// A session of a neighbour for which there is one.
const ONE_ROUTE: &[(&str, usize)] = &[("OKUEC", 161)];

pub const CASES: [Case<'static>; 8] = [
    Case {
        why: "a neighbour is sent a helper's route, and a Cease as the daemon ends",
        first: ROUTE,
        held: &[Held(Link, 0, Took, 5), Held(Second, 0, Said, 140)],
        fails: &[],
        faults: (0, 0),
        replies: b"done\n",
        said: ONE_ROUTE,
    },
    Case {
        why: "a helper that isn't started is started again",
        first: b"# a\n",
        held: &[Held(Link, 0, Took, 5), Held(Second, 0, Said, 93)],
        fails: &[Fails(Starts, ALL, &[0])],
        faults: (1, 0),
        replies: b"done\n",
        said: NO_ROUTE,
    },
    Case {
        why: "a helper that isn't started five times is given up",
        first: b"# a\n",
        held: &[Held(Link, 0, Failed, 5), Held(Second, 0, Said, 93)],
        fails: &[Fails(Starts, ALL, &[0, 1, 2, 3, 4, 5])],
        faults: (5, 0),
        replies: b"",
        said: NO_ROUTE,
    },
    Case {
        why: "a helper whose second read fails is gone",
        first: b"# a\n# b\n",
        held: &[Held(Link, 0, Ended, 1), Held(Second, 0, Said, 93)],
        fails: &[Fails(First, 4, &[1])],
        faults: (1, 0),
        replies: b"done\n",
        said: NO_ROUTE,
    },
    Case {
        why: "a helper that can't be answered is ended, and what it said stays",
        first: b"announce route 10.0.0.0/24 next-hop 192.0.2.1\nwithdraw route 10.0.0.0/24\n",
        held: &[
            Held(First, 46, Killed, 1),
            Held(Link, 0, Ended, 1),
            Held(Second, 0, Said, 140),
        ],
        fails: &[Fails(Took, 2, &[1])],
        faults: (1, 0),
        replies: b"do",
        said: ONE_ROUTE,
    },
    Case {
        why: "a neighbour that isn't connected to is dialled again",
        first: b"",
        held: &[Held(Second, 0, Said, 93)],
        fails: &[Fails(Connects, ALL, &[0])],
        faults: (0, 1),
        replies: b"",
        said: NO_ROUTE,
    },
    Case {
        why: "a session whose receiving fails comes up again with all routes",
        first: ROUTE,
        held: &[Held(Link, 0, Took, 5), Held(Second, 0, Said, 280)],
        fails: &[Fails(Link, ALL, &[1])],
        faults: (0, 1),
        replies: b"done\n",
        said: &[("OKUE", 140), ("OKUEC", 161)],
    },
    Case {
        why: "a session whose sending fails within a route comes up again with all routes",
        first: ROUTE,
        held: &[Held(Link, 0, Took, 5), Held(Second, 0, Said, 251)],
        fails: &[Fails(Said, 60, &[2])],
        faults: (0, 1),
        replies: b"done\n",
        said: &[("OKUE", 111), ("OKUEC", 161)],
    },
];
