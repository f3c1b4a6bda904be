//! Rows of `scenes`.

/// Jobs of one client after another, and the account that is rotated meanwhile.
///
/// The account of `account 713` has room for one job alone: 712 entries for a job of `lp`, and one for the close.
pub const PRINTING: &str = r##"
one_job
printer title 
serve --connections 1
job 1 hello world
----
said closed entries 13\n
printed title hello world
log 0
====
rotated_after_each
serve --connections 2 --rotate 1
job 1 hello world
job 2 hello world
----
said rotated 1 entries 12\nclosed entries 25\n
printed hello worldhello world
====
rotated_where_it_is_full
account 713
serve --connections 2 --rotate 1
job 1 hello world
job 2 hello world
----
said rotated 1 entries 12\nclosed entries 25\n
printed hello worldhello world
====
not_rotated_after_the_last
serve --connections 2 --rotate 2
job 1 hello world
job 2 hello world
----
said closed entries 25\n
printed hello worldhello world
====
never_rotated
account 713
serve --connections 2
job 1 hello world
refused 2 2 hello world
----
said closed entries 13\n
printed hello world
====
a_job_finds_no_room
account 713
serve --connections 1
send a 1 hello world
write a \x0311 dfA002h1\n
answered a \x02
ended a
----
said closed entries 13\n
printed hello world
====
a_rotation_is_told_first
slowly 300
serve --connections 2 --rotate 1
job 1 hello world
connect b
write b \x02lp\n
answered b \x00
tells \nrotated 1 entries 12\n
----
printed hello world
====
a_rotation_is_told_at_once
account 713
room 20000
serve --connections 2 --keep-room
job 1 hello world
comes \nrotated 1 entries 12\n
job 2 !
----
printed hello world!
====
room_is_kept
account 713
room 20000
serve --connections 2 --keep-room
job 1 hello world
job 2 hello world
----
first rotated 1 entries 12\n
last closed entries 25\n
printed hello worldhello world
====
the_end_waits_for_a_page
pipe
serve --connections 2
job 1 hello world
connect b
whole b 2 hello world
answered b \x00\x00\x00\x00\x00
drop b
pause 300
empty
----
said closed entries 25\n
piped hello worldhello world
====
a_rotation_waits_for_a_page
pipe
serve --connections 2 --rotate 1
job 1 hello world
connect b
whole b 2 hello world
waits b
empty
answered b \x00\x00\x00\x00\x00
drop b
----
said rotated 1 entries 12\nclosed entries 25\n
piped hello worldhello world
====
many_connections
serve --connections 16
jobs 16
----
said closed entries 129\n
"##;

/// Peers that halt, break off, or don't read, and what the log says of them.
///
/// Where peers don't read, three of them ask for a listing of two and a half megabytes, of which the system keeps less than two: two of the sessions
/// that take no jobs and the one that does wait for them, until that takes a job again.
///
/// In the last one the job that waits for a page is of the queue `lp`, whose later job comes out behind it; the one that halts is of another.
pub const HALTING: &str = r##"
silent_peers_are_left
serve --connections 3 --sessions 1 --silence 2
connect silent
connect halting
write halting \x02lp\n\x0311 dfA002h1\nhello
job 1 hello world
ended silent
answered halting \x00\x00
ended halting
----
printed hello world
====
each_end_is_logged
serve --connections 4 --sessions 1 --silence 2
connect refused
write refused \x02nothing\n
write refused 131072 times \x00
answered refused \x01
ended refused
connect broken
write broken \x02lp\n\x03
half broken
answered broken \x00
ended broken
connect silent
write silent \x02lp\n
answered silent \x00
ended silent
job 1 hello world
----
logged : 1 UnknownQueue: queue nothing\n
logged : the connection ended in the middle\n
logged : reading failed, or the peer was silent\n
log 3
printed hello world
====
a_peer_does_not_read
pages 512
jobs 512
account 1000000
listing 1
link /dev/full
serve --connections 5 --sessions 1 --silence 2
long 300
deaf a \x04lp\n
deaf b \x04lp\n
deaf c \x04lp\n
job 2 a job
----
logged : writing failed\n
====
a_halting_peer_gives_its_pages_back
plotter
serve --connections 3 --silence 3
connect halting
write halting \x02plotter\n\x0311 dfA001h1\nhello
answered halting \x00\x00
connect waiting
write waiting \x02lp\n\x0311 dfA001h1\n
answered waiting \x00\x00
job 2  again
write waiting hello world\x00\x0219 cfA001h1\nHh1\nPann\nfdfA001h1\n\x00
answered waiting \x00\x00\x00
ended halting
----
printed hello world again
====
peers_leave_amid_a_job
serve --connections 27
connect x
write x \x02
drop x
connect x
write x \x02
half x
drop x
connect x
write x \x02lp\n
drop x
connect x
write x \x02lp\n
half x
drop x
connect x
write x \x02lp\n\x0311\x20d
drop x
connect x
write x \x02lp\n\x0311\x20d
half x
drop x
connect x
write x \x02lp\n\x0311\x20dfA001h1\n
drop x
connect x
write x \x02lp\n\x0311\x20dfA001h1\n
half x
drop x
connect x
write x \x02lp\n\x0311\x20dfA001h1\nh
drop x
connect x
write x \x02lp\n\x0311\x20dfA001h1\nh
half x
drop x
connect x
write x \x02lp\n\x0311\x20dfA001h1\nhello\x20wor
drop x
connect x
write x \x02lp\n\x0311\x20dfA001h1\nhello\x20wor
half x
drop x
connect x
write x \x02lp\n\x0311\x20dfA001h1\nhello\x20world
drop x
connect x
write x \x02lp\n\x0311\x20dfA001h1\nhello\x20world
half x
drop x
connect x
write x \x02lp\n\x0311\x20dfA001h1\nhello\x20world\x00
drop x
connect x
write x \x02lp\n\x0311\x20dfA001h1\nhello\x20world\x00
half x
drop x
connect x
write x \x02lp\n\x0311\x20dfA001h1\nhello\x20world\x00\x0219\x20cf
drop x
connect x
write x \x02lp\n\x0311\x20dfA001h1\nhello\x20world\x00\x0219\x20cf
half x
drop x
connect x
write x \x02lp\n\x0311\x20dfA001h1\nhello\x20world\x00\x0219\x20cfA001h1\n
drop x
connect x
write x \x02lp\n\x0311\x20dfA001h1\nhello\x20world\x00\x0219\x20cfA001h1\n
half x
drop x
connect x
write x \x02lp\n\x0311\x20dfA001h1\nhello\x20world\x00\x0219\x20cfA001h1\nH
drop x
connect x
write x \x02lp\n\x0311\x20dfA001h1\nhello\x20world\x00\x0219\x20cfA001h1\nH
half x
drop x
connect x
write x \x02lp\n\x0311\x20dfA001h1\nhello\x20world\x00\x0219\x20cfA001h1\nHh1\nPann\nfdfA
drop x
connect x
write x \x02lp\n\x0311\x20dfA001h1\nhello\x20world\x00\x0219\x20cfA001h1\nHh1\nPann\nfdfA
half x
drop x
connect x
write x \x02lp\n\x0311\x20dfA001h1\nhello\x20world\x00\x0219\x20cfA001h1\nHh1\nPann\nfdfA001h1\n
drop x
connect x
write x \x02lp\n\x0311\x20dfA001h1\nhello\x20world\x00\x0219\x20cfA001h1\nHh1\nPann\nfdfA001h1\n
half x
drop x
job 2 good
----
printed good
====
a_printer_waits_for_no_other
plotter
pipe
serve --connections 3
connect a
whole a 1 hello world
answered a \x00\x00\x00\x00\x00
drop a
pause 300
connect b
write b \x02plotter\n\x0311 dfA002h1\nhello world\x00\x0219 cfA002h1\nHh1\nPann\nfdfA002h1\n\x00
answered b \x00\x00\x00\x00\x00
drop b
pause 300
connect c
write c \x03plotter\n
answered c queue plotter jobs 0 printers 1 stopped 0\n
ended c
empty
----
piped hello world
"##;

/// Servers that can't start, or can't go on.
pub const FAILING: &str = r##"
no_file_for_a_printer
folder
alone
serve 
----
ends fault 73 WriteFile no_file_for_a_printer/printer-1
said 
====
no_folder_for_a_printer
nowhere
alone
serve 
----
ends fault 73 WriteFile no_folder_for_a_printer/printer-1
said 
====
the_port_is_taken
taken
alone
serve 
----
ends fault 72 Network
said 
====
the_first_line_fails
lines 0
alone
serve --rotate 1
----
ends fault 73 WriteFile
faults fault 73 WriteFile\n
said 
====
the_last_line_fails
lines 1
serve --connections 1 --rotate 1
job 1 a job
----
ends fault 73 WriteFile
faults fault 73 WriteFile\n
printed a job
====
the_line_of_a_rotation_fails
lines 1
serve --connections 3 --rotate 1
jobs 3
----
ends fault 73 WriteFile
faults fault 73 WriteFile: nothing more is printed,\x20and the server goes on\n
printed a joba joba job
====
the_line_behind_a_rotation_fails
lines 2
serve --connections 2 --rotate 1
jobs 2
----
ends fault 73 WriteFile
faults fault 73 WriteFile\n
printed a joba job
====
a_rotation_is_refused
link /dev/full
serve --connections 2 --rotate 1
send a 1 hello world
more a 2 hello world
drop a
job 3 !
----
said closed entries 25\n
faults fault 14 JobsHeld\n
====
a_device_fails
link /dev/full
serve --connections 1
job 1 hello world
----
said closed entries 11\n
logged [WARN  lpd_daemon::printing] printer 1: job 1, place 0: No space left on device (os error 28)\n
log 1
"##;
