//! Laws of the made worlds.
ghost use Rattle.std.specs.Prelude.{◌≡◌, ℕ, ◌<◌, ◌^◌, ◌++◌, codes};
ghost use Rattle.net_base.specs.World.{IsWorld};
ghost use Rattle.world_writer.specs.Made.{made_world};
ghost use Rattle.world_writer.specs.Written.{world_file_text};

/// Each made world is one that a file can say.
pub fn made_worlds_are_worlds()
    ensures { (n : ℕ) → n < 2 ^ 64 → IsWorld (made_world n) }
{}

/// The file of the made world of one message, by computation.
pub fn worked_made_world()
    ensures { world_file_text (made_world 1)
        ≡ codes "networld 1\nend 1000000000\nseed 1\nmedium ether0 1500\nhost anna il udp\n"
        ++ (codes "if ether0 135.104.9.6 255.255.255.0\nhost helix il udp\nif ether0 135.104.9.31 255.255.255.0\n"
        ++ (codes "script anna\nuntil 10\ndial d net!helix!9fs\nwrite d 1\nread d 8192\nclose d\n"
        ++ (codes "script helix\nannounce a net!*!9fs\nlisten c a\naccept e c\nread e 8192\nwrite e 1\n"
        ++ (codes "read e 8192\nclose e\nclose c\nndb\nipnet=astro ip=135.104.0.0 ipmask=255.255.0.0\n\tauth=bootes\n"
        ++ (codes "ipnet=astro9 ip=135.104.9.0 ipmask=255.255.255.0\n\tauth=helix\nsys=anna ip=135.104.9.6\n"
        ++ (codes "\tdom=anna.example.com\nsys=helix dom=helix.example.com\n\tip=10.0.0.31\n\tip=135.104.9.31\n"
        ++ codes "sys=bootes\n\tip=135.104.50.2\nil=9fs port=17008\nudp=echo port=7\n")))))) }
{}
