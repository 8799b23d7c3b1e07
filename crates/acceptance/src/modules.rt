//! The modules of rows.

/// Passes on what it gets, up to an EOS.
pub(crate) const IDENTITY: &[u8] = b"module 1
open
ret ok
init
ret ok
main
jsent drop
pass in bad
ret ok
:drop
bclean in
ret ok
:bad
ret fail
end
";

/// What is known of `IDENTITY`.
pub(crate) const IDENTITY_CERT: &str = "cert 1
idle sent=no
ready sent=maybe
0 sent=no
1 sent=no
2 sent=maybe in=u/o/call
3 sent=no in=u/o/call
4 sent=maybe in=p
5 sent=maybe in=u/o/call
6 sent=maybe in=u/e/-
7 sent=maybe in=p
end
";

/// The same in version 2.
pub(crate) const IDENTITY_TWO: &str = "cert 2 full
vars 0 0
code 8
idle sent=no
ready sent=maybe
0 sent=no
1 same 0
2 sent=maybe in=u/o/call
3 sent=no in=u/o/call
4 sent=maybe in=p
5 same 2
6 sent=maybe in=u/e/-
7 same 4
end
";

/// The same in its slim form.
pub(crate) const IDENTITY_SLIM: &str = "slim 1
idle sent=no
ready sent=maybe
0 sent=no
1 sent=no
2 sent=maybe in=u/o/call
5 sent=maybe in=u/o/call
7 sent=maybe in=p
end
";

/// Two cursors are at one bucket, which is destroyed by one and read by the other.
pub(crate) const ALIAS_DELETED: &[u8] = b"module 1
open
ret ok
init
ret ok
main
first c0 in
jend c0 out
first c1 in
jend c1 out
bdelete c0
read c1 out
:out
ret ok
end
";

/// It says nothing of whether the two cursors are at two buckets.
pub(crate) const ALIAS_WITHOUT_FACT: &str = "cert 1
idle sent=no
ready sent=no
0 sent=no
1 sent=no
2 sent=no in=u/o/call
3 sent=no in=u/o/call c0=in?/dfe
4 sent=no in=u/o/call c0=in/dfe
5 sent=no in=u/o/call c0=in/dfe c1=in?/dfe
6 sent=no in=u/o/call c0=in/dfe c1=in/dfe
7 sent=no in=u/o/call
8 sent=no in=u/o/call c0=in?/dfe
end
";

/// It says that they are.
pub(crate) const ALIAS_CERT: &str = "cert 1
idle sent=no
ready sent=no
0 sent=no
1 sent=no
2 sent=no in=u/o/call
3 sent=no in=u/o/call c0=in?/dfe
4 sent=no in=u/o/call c0=in/dfe
5 sent=no in=u/o/call c0=in/dfe c1=in?/dfe c0!c1
8 sent=no in=u/o/call c0=in?/dfe
end
";

/// A bucket is taken out of its brigade while another cursor is behind it.
pub(crate) const NEXT_THEN_UNLINK: &[u8] = b"module 1
open
ret ok
init
ret ok
main
first c0 in
jend c0 out
next c1 c0
jend c1 out
unlink c0
read c1 out
:out
ret ok
end
";

/// A bucket is read after it was destroyed.
pub(crate) const READ_AFTER_DELETE: &[u8] = b"module 1
open
ret ok
init
ret ok
main
first c0 in
jend c0 out
bdelete c0
heap c1 \"x\"
read c0 out
:out
ret ok
end
";

/// A brigade is used after it was passed.
pub(crate) const REUSED_PASSED_BRIGADE: &[u8] = b"module 1
brigade b0 conn
open
bcreate b0
ret ok
init
ret ok
main
flush c0
tail b0 c0
pass b0 bad
:bad
eos c1
tail b0 c1
ret ok
end
";

/// A bucket is set aside into the request's pool, and kept in a brigade of the connection.
pub(crate) const ASIDE_INTO_REQUEST: &[u8] = b"module 1
brigade b0 conn
open
bcreate b0
ret ok
init
ret ok
main
jempty b0 take
pass b0 bad
bclean b0
ret ok
:take
first c0 in
jend c0 out
unlink c0
aside c0 req
tail b0 c0
:out
ret ok
:bad
bclean b0
ret fail
end
";

/// It says that what is kept may have a home that has ended.
pub(crate) const ASIDE_CERT: &str = "cert 1
idle sent=no b0=l/u/o/dead
ready sent=maybe b0=l/u/o/req,dead
0 sent=no b0=n
1 sent=no b0=l/u/e/-
2 sent=no b0=l/u/o/dead
3 sent=maybe b0=l/u/o/req,dead in=u/o/call
4 sent=maybe b0=l/u/o/req,dead in=u/o/call
7 sent=maybe b0=l/u/e/- in=u/o/call
end
";

/// What is brought is kept up to an EOS, and not set aside.
pub(crate) const KEEPER_CONCATS: &[u8] = b"module 1
brigade b0 conn
brigade b1 conn
open
bcreate b0
bcreate b1
ret ok
init
bclean b0
ret ok
main
jsent drop
:loop
first c0 in
jend c0 keep
unlink c0
jkind c0 eos send
tail b1 c0
jump loop
:keep
bconcat b0 b1
ret ok
:send
tail b1 c0
bconcat b0 b1
bclean in
pass b0 bad
bclean b0
ret ok
:bad
bclean b0
ret fail
:drop
bclean in
ret ok
end
";

/// `init` never ends.
pub(crate) const LOOPING_INIT: &[u8] = b"module 1
pool p0 conn
open
ret ok
init
:a
jump a
main
pclear p0
ret ok
end
";

/// Answers that it failed.
pub(crate) const FAILING: &[u8] = b"module 1
open
ret ok
init
ret ok
main
ret fail
end
";

/// Passes on bytes of its own, which lie in a pool that it clears before.
pub(crate) const POOL_BYTES: &[u8] = b"module 1
pool p0 conn
brigade b0 conn
open
pcreate p0
bcreate b0
ret ok
init
ret ok
main
put 104 bad
put 105 bad
poolb c0 p0
tail b0 c0
pclear p0
pass b0 bad
bclean b0
ret ok
:bad
bclean b0
ret fail
end
";

/// Puts a letter in front of the first brigade of a request, and leaves.
pub(crate) const LEAVER: &[u8] = b"module 1
brigade b0 req
open
ret ok
init
bcreate b0
ret ok
main
jsent drop
heap c0 \"x\"
tail b0 c0
bconcat b0 in
leave
pass b0 bad
bclean b0
ret ok
:bad
bclean b0
ret fail
:drop
bclean in
ret ok
end
";
