//! Configurations.

// One process and one neighbour, which hears it.
pub const ONE: &str = "process h { run /bin/cat; }
neighbor 192.0.2.2 { local-address 192.0.2.9; local-as 65001; peer-as 65002;
  api { processes [ h ]; } }
";

// The same, and the process is started once.
pub const ONCE: &str = "process h { run /bin/cat; respawn false; }
neighbor 192.0.2.2 { local-address 192.0.2.9; local-as 65001; peer-as 65002;
  api { processes [ h ]; } }
";

// The same, and no neighbour hears the process.
pub const UNHEARD: &str = "process h { run /bin/cat; }
neighbor 192.0.2.2 { local-address 192.0.2.9; local-as 65001; peer-as 65002; }
";

// The same with another hold time.
pub const HOLD: &str = "process h { run /bin/cat; }
neighbor 192.0.2.2 { local-address 192.0.2.9; local-as 65001; peer-as 65002; hold-time 90;
  api { processes [ h ]; } }
";

// The same with a static route.
pub const STATIC: &str = "process h { run /bin/cat; }
neighbor 192.0.2.2 { local-address 192.0.2.9; local-as 65001; peer-as 65002;
  static { route 10.0.0.0/24 next-hop 192.0.2.7; }
  api { processes [ h ]; } }
";

// Two neighbours, of which the first has a static route.
pub const TWO: &str = "process h { run /bin/cat; }
neighbor 192.0.2.2 { local-address 192.0.2.9; local-as 65001; peer-as 65002;
  static { route 10.0.1.0/24 next-hop self; }
  api { processes [ h ]; } }
neighbor 192.0.2.3 { local-address 192.0.2.9; local-as 65001; peer-as 65002;
  api { processes [ h ]; } }
";

// A process that ends too early.
pub const UNFINISHED: &str = "process h { run cat;";

// A neighbour of another AS with both families, and one of the own AS.
pub const USER: &str = "process announcer {
    run /usr/bin/python3 -u /etc/exabgp/announce.py;
    encoder text;
}
neighbor 192.0.2.2 {
    description \"transit one\";
    router-id 192.0.2.9;
    local-address 192.0.2.9;
    local-as 65001;
    peer-as 65002;
    hold-time 180;
    family { ipv4 unicast; ipv6 unicast; }
    static {
        route 198.51.100.0/24 next-hop self community [ 65001:100 no-export ];
    }
    api { processes [ announcer ]; }
}
neighbor 192.0.2.3 {
    local-address 192.0.2.9;
    local-as 65001;
    peer-as 65001;
    family { ipv4 unicast; }
    api { processes [ announcer ]; }
}
";
