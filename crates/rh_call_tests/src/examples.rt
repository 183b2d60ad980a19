//! The programs of the folder `examples` and what they print. A test runs in a folder of its own, so they stand here again:
//! a changed example is changed in both places.

/// A chain of two tasks.
pub const CHAIN: &[u8] = b"rhc 1
# Two tasks in a chain: b awaits what a puts.
promise x 3
promise y 3

task a plain
  let v lit 1 2 3
  put x v
end

task b plain await x
  let w add x x
  put y w
end
";

pub const CHAIN_REPORT: &[u8] = b"rhr 1
task a accepted 0
  attempt 0 accepted
task b accepted 0
  attempt 0 accepted
promise x by a attempt 0: 1 2 3
promise y by b attempt 0: 2 4 6
total tasks 2 accepted 2 failed 0 skipped 0 puts 2 faults 0 of 0
";

/// One task feeds two, and a fourth joins them.
pub const DIAMOND: &[u8] = b"rhc 1
# One task feeds two, and a fourth joins them. Words are 64 bits wide and wrap:
# 18446744073709551615 is 2^64 - 1.
promise source 2
promise left 2
promise right 1
promise join 1
promise spare 4

task feed plain
  let v lit 18446744073709551615 5
  put source v
end

task double plain await source
  let d add source source
  put left d
end

task total plain await source
  let s sum source
  put right s
end

task meet plain await left right
  let t sum left
  let u add t right
  put join u
end
";

pub const DIAMOND_REPORT: &[u8] = b"rhr 1
task feed accepted 0
  attempt 0 accepted
task double accepted 0
  attempt 0 accepted
task total accepted 0
  attempt 0 accepted
task meet accepted 0
  attempt 0 accepted
promise source by feed attempt 0: 18446744073709551615 5
promise left by double attempt 0: 18446744073709551614 10
promise right by total attempt 0: 4
promise join by meet attempt 0: 12
promise spare none
total tasks 4 accepted 4 failed 0 skipped 0 puts 4 faults 0 of 0
";

/// One task with two puts.
pub const TOTALS: &[u8] = b"rhc 1
# One task puts two promises: its samples, and their sum.
promise samples 4
promise total 1

task read plain
  let v lit 0x10 0x20 0x30 64
  let s sum v
  put samples v
  put total s
end
";

pub const TOTALS_REPORT: &[u8] = b"rhr 1
task read accepted 0
  attempt 0 accepted
promise samples by read attempt 0: 16 32 48 64
promise total by read attempt 0: 160
total tasks 1 accepted 1 failed 0 skipped 0 puts 2 faults 0 of 0
";

/// A promise that is put twice.
pub const REFUSED: &[u8] = b"rhc 1
# The second task puts a promise that the first one puts already: line 11 is refused.
promise x 1
task a plain
  let v lit 0x10
  put x v
end

task b plain
  let v lit 2
  put x v
end
";

pub const REFUSED_MESSAGE: &[u8] = b"rh: program line 11 reason 13 Owner
";

/// Every plain kernel once.
pub const KERNELS: &[u8] = b"rhc 1
# Every plain kernel once. Words are 64 bits wide; 18446744073709551615 is 2^64 - 1, which reads as -1.
promise made 3
promise sums 3
promise pieces 6
promise shifted 2
promise totals 1
promise counted 1

task generate plain
  let g gen 3 0 1000
  put made g
end

task combine plain await made
  let t lit 1 2 3
  let a add made t
  let s sub a made
  let m mul s t
  let k scale m 2
  put sums k
end

task arrange plain await made
  let c cut made 1 2
  let j join c made c
  let p cut j 1 6
  put pieces p
end

task count plain await made sums
  let n lit 18446744073709551608 8
  let h shift n 1
  put shifted h
  let u sum sums
  put totals u
  let z count made
  put counted z
end
";

pub const KERNELS_REPORT: &[u8] = b"rhr 1
task generate accepted 0
  attempt 0 accepted
task combine accepted 0
  attempt 0 accepted
task arrange accepted 0
  attempt 0 accepted
task count accepted 0
  attempt 0 accepted
promise made by generate attempt 0: 0 966 933
promise sums by combine attempt 0: 2 8 18
promise pieces by arrange attempt 0: 933 0 966 933 966 933
promise shifted by count attempt 0: 18446744073709551612 4
promise totals by count attempt 0: 28
promise counted by count attempt 0: 2
total tasks 4 accepted 4 failed 0 skipped 0 puts 6 faults 0 of 0
";

/// A put that is not made, and a task that is skipped for it.
pub const SKIPPING: &[u8] = b"rhc 1
# The limit is not reached, so no alarm is put, and what awaits it is skipped.
promise load 2
promise alarm 1
promise answer 1
promise note 1 temp

task measure plain
  let v lit 3 4
  let over lit 0
  let one lit 1
  put load v
  put alarm one when over
end

task react plain await load alarm
  let s sum load
  put answer s
end

task log plain await load
  let s sum load
  drop load
  put note s
end
";

pub const SKIPPING_REPORT: &[u8] = b"rhr 1
task measure accepted 0
  attempt 0 accepted
task react skipped by alarm
task log accepted 0
  attempt 0 accepted
promise load by measure attempt 0: 3 4
promise alarm by measure void
promise answer by react void
promise note by log attempt 0 temp
total tasks 3 accepted 2 failed 0 skipped 1 puts 2 faults 0 of 0
";

/// Scopes and groups within one another, one of which stays closed.
pub const SCOPES: &[u8] = b"rhc 1
# A scope counts how the tasks inside it ended, at any depth. The limit is not reached, so no alarm is put, the group that
# awaits it stays closed, and what stands in it is skipped.
promise load 2
promise alarm 1
promise answer 1
promise sink 1
promise note 1
promise seen 1
promise counts 3

finish all
  task measure plain
    let v lit 3 4
    let over lit 0
    let one lit 1
    put load v
    put alarm one when over
  end

  group react await alarm
    finish inner
      task answers plain await load
        let s sum load
        put answer s
      end
      group deep await load
        task sinks plain
          let v lit 1
          put sink v
        end
      end
    end
    task after plain await inner
      let s sum inner
      put note s
    end
  end

  group watch await load
    finish watched
      task look plain await load
        let s sum load
        put seen s
      end
    end
  end
end

task tell plain await all
  put counts all
end
";

pub const SCOPES_REPORT: &[u8] = b"rhr 1
task measure accepted 0
  attempt 0 accepted
group react closed by alarm
task answers skipped by react
group deep closed by react
task sinks skipped by deep
finish inner 0 0 2
task after skipped by react
group watch opened
task look accepted 0
  attempt 0 accepted
finish watched 1 0 0
finish all 2 0 3
task tell accepted 0
  attempt 0 accepted
promise load by measure attempt 0: 3 4
promise alarm by measure void
promise answer by answers void
promise sink by sinks void
promise note by after void
promise seen by look attempt 0: 7
promise counts by tell attempt 0: 2 0 3
total tasks 6 accepted 3 failed 0 skipped 3 puts 3 faults 0 of 0
";

/// A scope in which a task is accepted, one fails and one is skipped, and a group that stays closed.
pub const COUNTING: &[u8] = b"rhc 1
promise x 1
promise y 1
promise z 3
promise g 1
finish f
task a plain
end
task b replay 1
let v lit 3
put x v
check range x 4 9
end
task c plain await x
put y x
end
end
task d plain await f
put z f
end
group h await x
task e plain
let v lit 1
put g v
end
end
";

pub const COUNTING_REPORT: &[u8] = b"rhr 1
task a accepted 0
  attempt 0 accepted
task b failed
  attempt 0 refused 0
task c skipped by x
finish f 1 1 1
task d accepted 0
  attempt 0 accepted
group h closed by x
task e skipped by h
promise x by b void
promise y by c void
promise z by d attempt 0: 1 1 1
promise g by e void
total tasks 5 accepted 2 failed 1 skipped 2 puts 1 faults 0 of 0
";

/// A fault in one attempt of a replicated task.
pub const REPLICATED: &[u8] = b"rhc 1
# The sum is replicated: a fault in one of its attempts changes nothing.
promise samples 4
promise total 1

task read plain
  let v lit 16 32 48 64
  put samples v
end

task add replicate await samples
  let s sum samples
  put total s
end
";

pub const REPLICATED_FAULTS: &[u8] = b"rhf 1
# Attempt 1 of add reads 49 in place of 48.
fault add 1 samples 2 0x1
";

pub const REPLICATED_REPORT: &[u8] = b"rhr 1
task read accepted 0
  attempt 0 accepted
task add accepted 0
  attempt 0 accepted
  attempt 1 differed
  attempt 2 agreed
promise samples by read attempt 0: 16 32 48 64
promise total by add attempt 0: 160
total tasks 2 accepted 2 failed 0 skipped 0 puts 2 faults 1 of 1
";

/// A check refuses two attempts of a replayed task.
pub const REPLAYED: &[u8] = b"rhc 1
# A replayed task is tried again until what it puts passes its check: the words must sum to 30.
promise x 2

task a replay 3
  let v lit 10 20
  put x v
  check total x 30
end
";

pub const REPLAYED_FAULTS: &[u8] = b"rhf 1
# The sums are 31 and 38, and then 30.
fault a 0 v 0 0x1
fault a 1 v 1 0x8
";

pub const REPLAYED_REPORT: &[u8] = b"rhr 1
task a accepted 2
  attempt 0 refused 0
  attempt 1 refused 0
  attempt 2 accepted
promise x by a attempt 2: 10 20
total tasks 1 accepted 1 failed 0 skipped 0 puts 1 faults 2 of 2
";

/// More faults than a replicated task tolerates.
pub const OVER_BUDGET: &[u8] = b"rhc 1
# A replicated task tolerates a fault in one attempt. With faults in two, no two of its attempts agree: it fails, and
# what awaits it is skipped.
promise x 2
promise y 2

task a replicate
  let v lit 5 6
  put x v
end

task b plain await x
  put y x
end
";

pub const OVER_BUDGET_FAULTS: &[u8] = b"rhf 1
# The attempts put 4 6, 7 6 and 5 6.
fault a 0 v 0 0x1
fault a 1 v 0 0x2
";

pub const OVER_BUDGET_REPORT: &[u8] = b"rhr 1
task a failed
  attempt 0 differed
  attempt 1 differed
  attempt 2 differed
task b skipped by x
promise x by a void
promise y by b void
total tasks 2 accepted 0 failed 1 skipped 1 puts 0 faults 2 of 2
";

/// A step of heat in three tiles, one of which is faulted.
pub const HEAT: &[u8] = b"rhc 1
# One step of heat along a ring of six words in three tiles. Each tile is stepped between its two neighbours: a quarter of the
# difference flows from a word to the next. A step is replayed where its words do not have the sum that the check asks for.
promise a 2
promise b 2
promise c 2
promise stepped_a 2
promise stepped_b 2
promise stepped_c 2
promise heat 1

task start plain
  let x lit 8 0
  let y lit 4 4
  let z lit 0 16
  put a x
  put b y
  put c z
end

task step_a replay 2 await c a b
  let t stencil1 c a b 1 2
  put stepped_a t
  check conserve stepped_a c a b 1 2
end

task step_b replay 2 await a b c
  let t stencil1 a b c 1 2
  put stepped_b t
  check conserve stepped_b a b c 1 2
end

task step_c replay 2 await b c a
  let t stencil1 b c a 1 2
  put stepped_c t
  check conserve stepped_c b c a 1 2
end

task sum plain await stepped_a stepped_b stepped_c
  let j join stepped_a stepped_b stepped_c
  let s sum j
  put heat s
end
";

pub const HEAT_FAULTS: &[u8] = b"rhf 1
# The second word of the middle tile is 3 after its step; in the first attempt it is 7.
fault step_b 0 t 1 0x4
";

pub const HEAT_REPORT: &[u8] = b"rhr 1
task start accepted 0
  attempt 0 accepted
task step_a accepted 0
  attempt 0 accepted
task step_b accepted 1
  attempt 0 refused 0
  attempt 1 accepted
task step_c accepted 0
  attempt 0 accepted
task sum accepted 0
  attempt 0 accepted
promise a by start attempt 0: 8 0
promise b by start attempt 0: 4 4
promise c by start attempt 0: 0 16
promise stepped_a by step_a attempt 0: 8 3
promise stepped_b by step_b attempt 1: 3 3
promise stepped_c by step_c attempt 0: 5 10
promise heat by sum attempt 0: 32
total tasks 5 accepted 5 failed 0 skipped 0 puts 7 faults 1 of 1
";

/// A product under a task with correction, and a fault in one of its words.
pub const CORRECTED: &[u8] = b"rhc 1
# A sparse matrix with two rows and two columns times what x holds. One altered word of the product is found and put right.
matrix a 2 2
  row 0:2
  row 0:1 1:3
end
promise x 2
promise y 2

task init plain
  let v lit 5 7
  put x v
end

task mul abft await x
  let p product a x
  put y p
  check product y a x
end
";

pub const CORRECTED_FAULTS: &[u8] = b"rhf 1
# The second word of the product becomes 27 in place of 26.
fault mul 0 p 1 1
";

pub const CORRECTED_REPORT: &[u8] = b"rhr 1
task init accepted 0
  attempt 0 accepted
task mul corrected 1
  attempt 0 corrected 1
promise x by init attempt 0: 5 7
promise y by mul attempt 0: 10 26
total tasks 2 accepted 2 failed 0 skipped 0 puts 2 faults 1 of 1
";

/// A product of which more than one word is altered, so that another one is put right.
pub const MISCORRECTED: &[u8] = b"rhc 1
# Three equal rows. A fault in the word that the product reads alters all three words of the product alike.
matrix a 3 1
  row 0:1
  row 0:1
  row 0:1
end
promise x 1
promise y 3

task init plain
  let v lit 5
  put x v
end

task mul abft await x
  let p product a x
  put y p
  check product y a x
end
";

pub const MISCORRECTED_FAULTS: &[u8] = b"rhf 1
# The product reads 7 in place of 5, so its words become 7 7 7.
fault mul 0 x 0 2
";

pub const MISCORRECTED_REPORT: &[u8] = b"rhr 1
task init accepted 0
  attempt 0 accepted
task mul corrected 1
  attempt 0 corrected 1
promise x by init attempt 0: 5
promise y by mul attempt 0: 7 1 7
total tasks 2 accepted 2 failed 0 skipped 0 puts 2 faults 1 of 1
";

/// A step of heat over a grid, under built checks and checks that the program hands in.
pub const GRID: &[u8] = b"rhc 1
# One step of heat over a closed grid of two rows and two columns. A quarter of the difference flows from a word to each neighbour. The
# words around the grid are those of its own edge, so that nothing flows over it and no heat is lost: the changes sum to 0.
# The program hands in two checks: `byte` asks for words up to 255, and `zero_sum` for words that sum to 0.
promise grid 4
promise north 2
promise south 2
promise west 2
promise east 2
promise stepped 4
promise change 4

task start plain
  let m lit 16 0 0 0
  let warm lit 16 0
  let cold lit 0 0
  put grid m
  put north warm
  put south cold
  put west warm
  put east cold
end

task step replay 2 await north south west east grid
  let t stencil2 north south west east grid 2 1 2
  put stepped t
  check range stepped 0 16
  check user stepped byte
  check conserve2 stepped north south west east grid 2 1 2
end

task compare replay 2 await grid stepped
  let d sub stepped grid
  put change d
  check user change zero_sum
end
";

pub const GRID_FAULTS: &[u8] = b"rhf 1
# The first word is 8 after the step; in the first attempt it is 12, so that the grid has gained heat.
fault step 0 t 0 0x4
# The first attempt to compare reads 12 in place of 4.
fault compare 0 stepped 1 0x8
";

pub const GRID_REPORT: &[u8] = b"rhr 1
task start accepted 0
  attempt 0 accepted
task step accepted 1
  attempt 0 refused 2
  attempt 1 accepted
task compare accepted 1
  attempt 0 refused 0
  attempt 1 accepted
promise grid by start attempt 0: 16 0 0 0
promise north by start attempt 0: 16 0
promise south by start attempt 0: 0 0
promise west by start attempt 0: 16 0
promise east by start attempt 0: 0 0
promise stepped by step attempt 1: 8 4 4 0
promise change by compare attempt 1: 18446744073709551608 4 4 0
total tasks 3 accepted 3 failed 0 skipped 0 puts 7 faults 2 of 2
";

/// Equal faults in two replicas.
pub const EQUAL_FAULTS: &[u8] = b"rhc 1
# Equal faults in both replicas: they agree on altered words, and no vote can tell.
promise x 2

task a replicate
  let v lit 5 6
  put x v
end
";

pub const EQUAL_FAULTS_TEXT: &[u8] = b"rhf 1
fault a 0 v 0 4
fault a 1 v 0 4
";

pub const EQUAL_FAULTS_REPORT: &[u8] = b"rhr 1
task a accepted 0
  attempt 0 accepted
  attempt 1 agreed
promise x by a attempt 0: 1 6
total tasks 1 accepted 1 failed 0 skipped 0 puts 1 faults 2 of 2
";

/// Faults that cancel in the checked sum.
pub const PASSING_FAULTS: &[u8] = b"rhc 1
# The faults of attempt 0 cancel in the sum: the check passes, and the altered words stand.
promise x 2

task a replay 3
  let v lit 10 20
  put x v
  check total x 30
end
";

pub const PASSING_FAULTS_TEXT: &[u8] = b"rhf 1
fault a 0 v 0 2
fault a 0 v 1 2
";

pub const PASSING_FAULTS_REPORT: &[u8] = b"rhr 1
task a accepted 0
  attempt 0 accepted
promise x by a attempt 0: 8 22
total tasks 1 accepted 1 failed 0 skipped 0 puts 1 faults 2 of 2
";

/// A fault in a task that is skipped.
pub const SKIPPED_FAULT: &[u8] = b"rhc 1
# The fault names a task that is skipped without faults too: no attempt of it is made.
promise alarm 1
promise answer 1

task watch plain
  let calm lit 0
  put alarm calm when calm
end

task react plain await alarm
  let s sum alarm
  put answer s
end
";

pub const SKIPPED_FAULT_TEXT: &[u8] = b"rhf 1
fault react 0 s 0 1
";

pub const SKIPPED_FAULT_REPORT: &[u8] = b"rhr 1
task watch accepted 0
  attempt 0 accepted
task react skipped by alarm
promise alarm by watch void
promise answer by react void
total tasks 2 accepted 1 failed 0 skipped 1 puts 0 faults 0 of 1
";
