//! Lines of a root, and what it must write of them.

pub(crate) const TREE: &str = "\
[[process]]
id = 1
kind = \"coordinator\"
[[process]]
id = 4
kind = \"manager\"
parent = 1
";

/// What is written of lines that are too long, and of those between them.
pub(crate) const LONG_SAID: &str = "\
log 1 Opened 1 forced
ok
ok
error
error
ok
error
";

/// A JOINED that is accepted, one that comes again, one of another ticket, one of no child, one for another
/// process, and one of nothing.
pub(crate) const JOINED: &str = "\
begin pa
join a1.1 4
1 4->1 JOINED a1.1 4.1.1
2 4->1 JOINED a1.1 4.1.1
3 4->1 JOINED a1.1 4.2.1
4 3->1 JOINED a1.1 3.1.1
5 4->9 JOINED a1.2 4.1.2
6 4->1 JOINED a1.2 4.1.2
7 4->1 JOINED
work a1.1 4 put x 1";

pub(crate) const JOINED_SAID: &str = "\
log 1 Opened 1 forced
ok
begin a1.1
ok
1 1->4 JOIN a1.1
ok
joined a1.1 4 a1.1@4.1.1
ok
ok
ok
refused 9
refused 9
ok
error
3 1->4 WORK a1.1@4.1.1 1 put x 1
ok
";

pub(crate) const PLAIN_SAID: &str = "\
log 1 Opened 1 forced
ok
begin a1.1
ok
1 1->4 JOIN a1.1
ok
ok
ok
ok
refused 9
refused 9
ok
error
2 1->4 WORK a1.1@4.1.1 1 put x 1
ok
";

/// A transaction that ends.
pub(crate) const ENDED: &str = "\
begin pa
join a1.1 4
1 4->1 JOINED a1.1 4.1.1
commit a1.1
2 4->1 YES a1.1@4.1.1
3 4->1 ACK a1.1@4.1.1 commit
";

/// What the next root is asked, which ends then.
pub(crate) const OUTCOME: &str = "\
outcome a1.1
end
outcome a1.1
";

pub(crate) const KEPT_SAID: &str = "\
log 1 Opened 2 forced
ok
outcome a1.1 committed
ok
ok
";

pub(crate) const TRIMMED_SAID: &str = "\
log 1 Opened 2 forced
ok
outcome a1.1 unknown
ok
ok
";

/// Transactions that are begun, and joined by a child.
pub(crate) const BEGUN: &str = "\
begin pa
begin pa
join a1.1 4
join a1.2 4
1 4->1 JOINED a1.1 4.1.1
2 4->1 JOINED a1.2 4.1.2
";

/// Four transactions, each of which forces a decision.
pub(crate) const MANY: &str = "\
begin pa
begin pa
begin pa
begin pa
join a1.1 4
join a1.2 4
join a1.3 4
join a1.4 4
1 4->1 JOINED a1.1 4.1.1
2 4->1 JOINED a1.2 4.1.2
3 4->1 JOINED a1.3 4.1.3
4 4->1 JOINED a1.4 4.1.4
commit a1.1
commit a1.2
commit a1.3
commit a1.4
5 4->1 YES a1.1@4.1.1
6 4->1 YES a1.2@4.1.2
7 4->1 YES a1.3@4.1.3
8 4->1 YES a1.4@4.1.4
outcome a1.4
";
