//! Cases, a line each: what it is, its datagram in hex, and what that means.

/// Registers.
const REGISTERS: &str = "
the first that a client sends: 4402000101020304b2726411283465703d61056c743d3630096c776d326d3d312e31ff3c2f332f303e -> register a 1.1 false 60 U - </3/0>
each default: 40020004b272644465703d61ff3c2f3e -> register a 1.0 false 86400 U - </>
non-confirmable: 5002000bb272644465703d61ff3c2f3e -> register a 1.0 false 86400 U - </>
no endpoint: 40020002b27264456c743d3630ff3c2f3e -> 60800002
an empty endpoint: 40020003b272644365703dff3c2f3e -> 60800003
";

/// Unrecognised options.
const UNRECOGNISED: &str = "
Block1: 40020005b272644465703d61c106ff3c2f3e -> 60820005
Block1, non-confirmable: 50020005b272644465703d61c106ff3c2f3e -> reject
Proxy-Uri: 40020006b27264d10b78 -> 60a50006
";

/// Lifetimes have at most ten digits.
const LIFETIMES: &str = "
none: 40020004b272644465703d61046c743d30ff3c2f3e -> register a 1.0 false 0 U - </>
60: 40020004b272644465703d61056c743d3630ff3c2f3e -> register a 1.0 false 60 U - </>
the most: 40020004b272644465703d610d006c743d34323934393637323935ff3c2f3e -> register a 1.0 false 4294967295 U - </>
one more: 40020004b272644465703d610d006c743d34323934393637323936ff3c2f3e -> 60800004
ten zeros: 40020004b272644465703d610d006c743d30303030303030303030ff3c2f3e -> register a 1.0 false 0 U - </>
eleven zeros: 40020004b272644465703d610d016c743d3030303030303030303030ff3c2f3e -> 60800004
no digits: 40020004b272644465703d61036c743dff3c2f3e -> 60800004
";

/// Refusals come in the order of the steps.
const REFUSALS: &str = "
a GET of `rd`: 40010006b27264 -> 60850006
a GET of `x`: 40010007b178 -> 60840007
format 50: 40020008b272641132ff3c2f3e -> 608f0008
version 1.2, no payload: 40020009b272644465703d61096c776d326d3d312e32 -> 608c0009
no payload: 4002000ab272644465703d61 -> 6080000a
an Update of no identifier, no list: 4002000cb272640178ff78 -> 6080000c
an Update of no identifier, no payload: 4002000cb272640178 -> update - - - - -
";

/// The earlier of two steps refuses.
const STEPS: &str = "
proxied and unrecognised: 40020001b27264d103068178 -> 60a50001
the same, non-confirmable: 50020001b27264d103068178 -> 50a50001
unrecognised, unknown path: 40020002b178d10306 -> 60820002
wrong format, bad query: 40020003b272641132346c743d78ff3c2f3e -> 608f0003
bad query, other version: 40020004b272644465703d61046c743d78096c776d326d3d312e32ff3c2f3e -> 60800004
other version, no list: 40020005b272644465703d61096c776d326d3d312e32ff78 -> 608c0005
";

/// The last query of a name counts.
const QUERIES: &str = "
`ep=` before `ep=a`: 40020001b272644365703d0465703d61ff3c2f3e -> register a 1.0 false 86400 U - </>
`ep=a` before `ep`: 40020002b272644465703d61026570ff3c2f3e -> 60800002
`lt=x` before `lt=5`: 40020003b272644465703d61046c743d78046c743d35ff3c2f3e -> register a 1.0 false 5 U - </>
split at the first `=`: 40020004b272644665703d613d62ff3c2f3e -> register a=b 1.0 false 86400 U - </>
unknown names: 40020005b272644465703d610465743d78056c74323d78013dff3c2f3e -> register a 1.0 false 86400 U - </> et=x lt2=x
the last of a name, names rising: 40020030b272644465703d6103793d3203783d31017a03783d3300023d34ff3c2f3e -> register a 1.0 false 86400 U - </> x=3 y=2 z=
a value with `=`, and one that goes away: 40020031b2726445783d613d620465703d6103793d310179ff3c2f3e -> register a 1.0 false 86400 U - </> x=a=b y=
names in another case: 40020032b272644445503d620465703d61017103423d5105536d733d31044c543d78ff3c2f3e -> register a 1.0 false 86400 U - </> B=Q EP=b LT=x Sms=1 q=
names with more behind: 40020033b272644465703d61056570203d620462323d78036c747804736d3d31ff3c2f3e -> register a 1.0 false 86400 U - </> b2=x ep =b ltx= sm=1
a name in other letters: 40020034b272644465703d6106e996803dc3a902c3a90161ff3c2f3e -> register a 1.0 false 86400 U - </> a= é= 門=é
no endpoint but an attribute: 40020035b2726443783d31ff3c2f3e -> 60800035
no UTF-8, unknown name: 40020006b272644465703d6103783dffff3c2f3e -> 60800006
no UTF-8, before a good one: 40020007b272644465703dff0465703d61ff3c2f3e -> 60800007
no UTF-8, no name, on an Update: 40020008b272640d0330303030303030303030303130303031423dff -> 60800008
all six: 40020009b272644465703d61046c743d30096c776d326d3d312e3105623d555153015107736d733d2b3439ff3c2f3e -> register a 1.1 true 0 UQS +49 </>
a binding in lower case: 4002000ab272644465703d6103623d75ff3c2f3e -> 6080000a
a binding of nine letters: 4002000bb272644465703d610b623d414243444546474849ff3c2f3e -> 6080000b
a version without a value: 4002000cb272644465703d61056c776d326dff3c2f3e -> 608c000c
an empty SMS number: 4002000db272644465703d6103736d73ff3c2f3e -> register a 1.0 false 86400 U  </>
";

/// An Update gives what it changes, and a Deregister names its registration.
const UPDATES: &str = "
a lifetime: 40020010b272640d0330303030303030303030303130303031466c743d313230 -> update 0000000000010001 120 - - -
a binding: 40020011b272640d033030303030303030303030313030303144623d5551 -> update 0000000000010001 - UQ - -
what an Update ignores: 40020012b272640d03303030303030303030303031303030314365703d076c776d326d3d3903513d7805736d733d31ff3c2f3e -> update 0000000000010001 - - 1 </>
attributes: 40020036b272640d0330303030303030303030303130303031417903783d3303793d31 -> update 0000000000010001 - - - - x=3 y=1
an attribute beside a lifetime: 40020037b272640d033030303030303030303030313030303143783d33066c743d313230 -> update 0000000000010001 120 - - - x=3
a bad lifetime: 40020013b272640d0330303030303030303030303130303031436c743d -> 60800013
a bad binding: 40020014b272640d033030303030303030303030313030303142623d -> 60800014
a format without a payload: 40020015b272640d033030303030303030303030313030303110 -> 608f0015
an empty segment: 40020016b2726400 -> update - - - - -
a Deregister: 40040017b272640d0330303030303030303030303130303031 -> deregister 0000000000010001
a Deregister with bad queries, format and payload: 40040018b272640d0330303030303030303030303130303031113231ffff78 -> deregister 0000000000010001
a Deregister of an empty segment: 40040019b2726400 -> deregister -
an upper-case identifier: 4004001ab272640d0330303030303030303030303130303041 -> deregister -
";

/// Paths, formats and options.
const PATHS: &str = "
a single empty segment: 40020001b0ff3c2f3e -> 60840001
an empty one before `rd`: 40020002b0027264ff3c2f3e -> 60840002
three segments: 40020003b272640d033030303030303030303030313030303100ff3c2f3e -> 60840003
a PUT of `rd`: 40030004b27264ff3c2f3e -> 60850004
code 0.31: 401f0005b272640d0330303030303030303030303130303031 -> 60850005
a DELETE of `rd`: 40040006b27264 -> 60850006
a first format of three bytes, a second of 50: 40020007b272641300003201323465703d61ff3c2f3e -> register a 1.0 false 86400 U - </>
format 40 in two bytes: 40020008b272641200283465703d61ff3c2f3e -> register a 1.0 false 86400 U - </>
an empty format: 40020009b27264103465703d61ff3c2f3e -> 608f0009
format 40, then 50: 4002000ab27264112801323465703d61ff3c2f3e -> register a 1.0 false 86400 U - </>
host, port and accept: 4002000b31684216334272644465703d612128ff3c2f3e -> register a 1.0 false 86400 U - </>
elective ones: 4002000c41657272644465703d61d020ff3c2f3e -> register a 1.0 false 86400 U - </>
an empty host: 4002000d308272644465703d61ff3c2f3e -> 6082000d
a second port: 4002000e70004272644465703d61ff3c2f3e -> 6082000e
a second host: 4002000f316801688272644465703d61ff3c2f3e -> 6082000f
a second accept: 40020010b272644465703d6121280128ff3c2f3e -> 60820010
an accept of three bytes: 40020011b272644465703d6123000028ff3c2f3e -> 60820011
If-Match: 4002001210a272644465703d61ff3c2f3e -> 60820012
two proxies: 40020013b27264d00b40ff3c2f3e -> 60a50013
format 50, then 40: 40020014b27264113201283465703d61ff3c2f3e -> 608f0014
";

/// Messages have roles.
const ROLES: &str = "
a ping: 40000007 -> ping
an empty NON: 50000007 -> ignore
an empty ACK: 60000007 -> ignore
an empty RST: 70000007 -> ignore
a RST of 2.05: 70450007 -> ignore
an ACK of a request: 60020007b272644465703d61ff3c2f3e -> ignore
class 1: 40200007 -> reject
class 3: 50600007 -> reject
class 6: 60c00007 -> reject
class 7: 40e00007 -> reject
a GET of no path: 40010001 -> 60840001
";

/// Reports have no critical option.
const REPORTS: &str = "
a notification: 4845003100000000000300016101ff31 -> report Con 49 [0000000000030001] 69 1 - [31]
an error ends an observation: 488400320000000000030001 -> report Con 50 [0000000000030001] 132 - - []
critical: 4145003301b27264ff31 -> reject
unknown critical, no token: 5045003490 -> reject
observe of four bytes: 51450035016400000001ff31 -> report Non 53 [01] 69 - - [31]
observe of three bytes, format: 6045003663010000620100 -> report Ack 54 [] 69 65536 256 []
a first observe: 5145003701600105 -> report Non 55 [01] 69 0 - []
class 5: 51a0003801 -> report Non 56 [01] 160 - - []
";

/// What requests, other messages and reports mean.
pub(super) static MEANINGS: [&str; 6] = [REGISTERS, LIFETIMES, QUERIES, UPDATES, ROLES, REPORTS];

/// What is refused for its first cause.
pub(super) static CAUSES: [&str; 4] = [UNRECOGNISED, REFUSALS, STEPS, PATHS];
