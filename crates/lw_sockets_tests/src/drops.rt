//! Tables of sockets as the system tells them.

use lw_sockets::drops_in;

/// What `/proc/net/udp` told on a machine where three sockets had more than they hold.
static TABLE: &str = "\
   sl  local_address rem_address   \
st tx_queue rx_queue tr tm->when retrnsmt   uid  timeout inode ref pointer drops            
 5903: 00000000:883E 00000000:0000 07 00000000:00000000 00:00000000 00000000     \
0        0 351952 2 000000004401ba67 0        
 9476: 0100007F:1633 0100007F:9C41 01 00000000:00034000 00:00000000 00000000     \
0        0 351954 2 0000000025360e2f 4        
 9476: 0100007F:1633 00000000:0000 07 00000000:00034000 00:00000000 00000000     \
0        0 351953 2 0000000084ea445c 17       
 9476: 00000000:1633 00000000:0000 07 00000000:00034000 00:00000000 00000000     \
0        0 351951 2 00000000d1f131cc 325      
11026: 0100007F:9C41 00000000:0000 07 00000000:00000000 00:00000000 00000000     \
0        0 351955 2 00000000918341f3 0        
";

/// What `/proc/net/udp6` told there.
static TABLE_OF_IPV6: &str = "\
  sl  local_address                         remote_address                        \
st tx_queue rx_queue tr tm->when retrnsmt   uid  timeout inode ref pointer drops
 8603: 00000000000000000000000000000000:92CA 00000000000000000000000000000000:0000 \
07 00000000:00000000 00:00000000 00000000     \
0        0 351957 2 00000000402c2478 0
 9476: 00000000000000000000000001000000:1633 00000000000000000000000000000000:0000 \
07 00000000:00034000 00:00000000 00000000     \
0        0 351958 2 0000000043913077 44
 9476: 00000000000000000000000000000000:1633 00000000000000000000000000000000:0000 \
07 00000000:00034000 00:00000000 00000000     \
0        0 351956 2 00000000cdfe9cd1 444
";

/// A place, the drops of its sockets over IPv4, and over IPv6.
static PLACES: [(&str, u64, u64); 8] = [
    ("00000000:1633", 325, 0),
    ("0100007F:1633", 21, 0),
    ("0100007F:9C41", 0, 0),
    ("0100007F:1634", 0, 0),
    ("0100007F", 0, 0),
    ("00000000000000000000000000000000:1633", 0, 444),
    ("00000000000000000000000001000000:1633", 0, 44),
    ("local_address", 0, 0),
];

/// Tries: lw_sockets::drops_in
#[test]
fn drops_are_those_of_the_place(rt: HostRuntime) {
    for (place, drops, drops_of_ipv6) in &PLACES {
        let found = drops_in(TABLE, place);
        assert!(rt; found == *drops, "{place}: {found}");
        let found = drops_in(TABLE_OF_IPV6, place);
        assert!(rt; found == *drops_of_ipv6, "{place}: {found}");
    }
}

/// What is no table, and what has rows that are cut.
static OTHERS: [&str; 6] = [
    "",
    "\n\n",
    " 1203: 00000000:1633",
    " 1203: 00000000:1633 -1",
    " 1203: 00000000:1633 18446744073709551616",
    "00000000:1633 325",
];

/// Tries: lw_sockets::drops_in
#[test]
fn what_is_no_row_has_no_drops(rt: HostRuntime) {
    for table in &OTHERS {
        assert!(rt; drops_in(table, "00000000:1633") == 0, "{table}");
    }
}
