//! Worked examples, computed from the definitions alone: texts, byte by byte, with their plan or
//! refusal. Each function does nothing; its contract is the example.
ghost use Rattle.std.specs.Prelude.{◌≡◌, ◌++◌};
ghost use Rattle.msrp_plan.specs.Common.{codes, Ok};
ghost use Rattle.msrp_plan.specs.declared.faults.PlanFault.TheVariants.{Limit};
ghost use Rattle.msrp_text.specs.Lines.{BeginsIn};
ghost use Rattle.msrp_text.specs.Reading.{csv_records, plan_of};
ghost use Rattle.msrp_text.specs.Examples.{bare_list, head, listed_head, listed_plan, locking_plan, offset_plan, one_task_plan, refused};
ghost use Rattle.msrp_plan.specs.declared.faults.PlanFault.TheVariants.{Version, OutOfPlace, FieldCount, Number, Name, Taken, Undeclared, Core, NoUnit, Releases};

/// One task that works for two ticks of three; also with its work in two records, with quoted
/// fields, and with other systems' line ends.
pub fn one_task()
    ensures plain { plan_of (csv_records (codes "msrp,1\ncores,1\nticks,3\ntask,a,0,3,3,0\nop,run,2\n")) ≡ Ok one_task_plan }
    ensures two_runs { plan_of (csv_records (codes "msrp,1\ncores,1\nticks,3\ntask,a,0,3,3,0\nop,run,1\nop,run,1\n")) ≡ Ok one_task_plan }
    ensures quoted { plan_of (csv_records (codes "msrp,1\r\n\r\ncores,\"1\"\r\nticks,3\r\ntask,\"a\",0,3,3,0\r\nop,run,2")) ≡ Ok one_task_plan }
{}

/// The first three records, and a text that ends before them. The end counts as one more record.
pub fn first_records()
    ensures nothing { plan_of (csv_records (codes "")) ≡ refused Version 1 }
    ensures another_version { plan_of (csv_records (codes "msrp,3\n")) ≡ refused Version 1 }
    ensures both_versions { plan_of (csv_records (codes "msrp,1,2\n")) ≡ refused Version 1 }
    ensures second_version { plan_of (csv_records (codes "msrp,2\n")) ≡ refused OutOfPlace 2 }
    ensures version_alone { plan_of (csv_records (codes "msrp,1\n")) ≡ refused OutOfPlace 2 }
    ensures two_numbers { plan_of (csv_records (codes "msrp,1\ncores,1,1\n")) ≡ refused FieldCount 2 }
    ensures leading_zero { plan_of (csv_records (codes "msrp,1\ncores,01\n")) ≡ refused Number 2 }
    ensures ten_digits { plan_of (csv_records (codes "msrp,1\ncores,1000000000\n")) ≡ refused Number 2 }
    ensures nine_cores { plan_of (csv_records (codes "msrp,1\ncores,9\n")) ≡ refused Limit 2 }
    ensures too_many_ticks { plan_of (csv_records (codes "msrp,1\ncores,1\nticks,20001\n")) ≡ refused Limit 3 }
{}

/// Records of tasks, after the first three for one core.
pub fn tasks()
    ensures three_numbers { plan_of (csv_records (head ++ codes "task,a,0,7,5,2\nop,run,1\n")) ≡ Ok offset_plan }
    ensures capital { plan_of (csv_records (head ++ codes "task,A,0,3,3,0\n")) ≡ refused Name 4 }
    ensures no_such_core { plan_of (csv_records (head ++ codes "task,a,1,3,3,0\n")) ≡ refused Core 4 }
    ensures no_period { plan_of (csv_records (head ++ codes "task,a,0,0,3,0\n")) ≡ refused Limit 4 }
    ensures no_unit { plan_of (csv_records (head ++ codes "task,a,0,3,3,0\n")) ≡ refused NoUnit 5 }
    ensures used_name { plan_of (csv_records (head ++ codes "task,a,0,3,3,0\nop,run,1\ntask,a,0,3,3,0\n")) ≡ refused Taken 6 }
    ensures record_first { plan_of (csv_records (head ++ codes "task,a,0,3,3,0\ntask,b\n")) ≡ refused FieldCount 5 }
{}

/// Records of resources, before the first task.
pub fn resources()
    ensures locked { plan_of (csv_records (head ++ codes "resource,r\ntask,a,0,9,9,0\nop,lock,r\nop,run,1\nop,unlock,r\n")) ≡ Ok locking_plan }
    ensures misnamed { plan_of (csv_records (head ++ codes "resource,R\n")) ≡ refused Name 4 }
    ensures nameless { plan_of (csv_records (head ++ codes "resource\n")) ≡ refused FieldCount 4 }
    ensures twice { plan_of (csv_records (head ++ codes "resource,r\nresource,r\n")) ≡ refused Taken 5 }
    ensures after_a_task { plan_of (csv_records (head ++ codes "task,a,0,3,3,0\nresource\n")) ≡ refused OutOfPlace 5 }
{}

/// Records of release lists, which only version 2 has.
pub fn release_lists()
    ensures listed { plan_of (csv_records (bare_list ++ codes "release,1\nrelease,3\nop,run,1\n")) ≡ Ok listed_plan }
    ensures of_version_one { plan_of (csv_records (head ++ codes "listed,a,0,4\n")) ≡ refused OutOfPlace 4 }
    ensures release_of_version_one { plan_of (csv_records (head ++ codes "task,a,0,3,3,0\nrelease,1\n")) ≡ refused OutOfPlace 5 }
    ensures falling { plan_of (csv_records (bare_list ++ codes "release,3\nrelease,1\nop,run,1\n")) ≡ refused Releases 6 }
    ensures twice { plan_of (csv_records (bare_list ++ codes "release,1\nrelease,1\n")) ≡ refused Releases 6 }
    ensures too_late { plan_of (csv_records (bare_list ++ codes "release,1000001\n")) ≡ refused Limit 5 }
    ensures no_tick { plan_of (csv_records (bare_list ++ codes "release,x\n")) ≡ refused Number 5 }
    ensures two_ticks { plan_of (csv_records (bare_list ++ codes "release,1,3\n")) ≡ refused FieldCount 5 }
    ensures bare { plan_of (csv_records bare_list) ≡ refused Releases 5 }
    ensures bare_run_of_none { plan_of (csv_records (bare_list ++ codes "op,run,0\n")) ≡ refused Releases 5 }
    ensures bare_lock { plan_of (csv_records (bare_list ++ codes "op,lock,nosuch\n")) ≡ refused Releases 5 }
    ensures bare_number { plan_of (csv_records (bare_list ++ codes "op,run,x\n")) ≡ refused Number 5 }
    ensures bare_word { plan_of (csv_records (bare_list ++ codes "op,foo\n")) ≡ refused OutOfPlace 5 }
    ensures bare_then_misnamed { plan_of (csv_records (bare_list ++ codes "listed,B,0,4\n")) ≡ refused Releases 5 }
    ensures after_units { plan_of (csv_records (bare_list ++ codes "release,1\nop,run,1\nrelease,2\n")) ≡ refused OutOfPlace 7 }
    ensures first { plan_of (csv_records (listed_head ++ codes "release\n")) ≡ refused OutOfPlace 4 }
    ensures no_deadline { plan_of (csv_records (listed_head ++ codes "listed,a,0\n")) ≡ refused FieldCount 4 }
    ensures no_number { plan_of (csv_records (listed_head ++ codes "listed,A,0,04\n")) ≡ refused Number 4 }
    ensures unknown { plan_of (csv_records (listed_head ++ codes "foo\n")) ≡ refused OutOfPlace 4 }
    ensures misspelt { plan_of (csv_records (bare_list ++ codes "relaese,1\n")) ≡ refused OutOfPlace 5 }
{}

/// Records of units, after a task.
pub fn units()
    ensures no_task { plan_of (csv_records (head ++ codes "op,run,1\n")) ≡ refused OutOfPlace 4 }
    ensures word_missing { plan_of (csv_records (head ++ codes "task,a,0,3,3,0\nop\n")) ≡ refused FieldCount 5 }
    ensures unknown_word { plan_of (csv_records (head ++ codes "task,a,0,3,3,0\nop,foo\n")) ≡ refused OutOfPlace 5 }
    ensures run_of_none { plan_of (csv_records (head ++ codes "task,a,0,3,3,0\nop,run,0\n")) ≡ refused Limit 5 }
    ensures no_such_resource { plan_of (csv_records (head ++ codes "task,a,0,3,3,0\nop,lock,r\n")) ≡ refused Undeclared 5 }
{}

/// Lines in which records begin: after LF, CR or CRLF, empty lines, and a field with a line end.
pub fn record_lines()
    ensures first { BeginsIn (codes "a\nb\n") 1 1 }
    ensures second { BeginsIn (codes "a\nb\n") 2 2 }
    ensures returns { BeginsIn (codes "a\r\rb") 2 3 }
    ensures both { BeginsIn (codes "a\r\n\r\nb") 2 3 }
    ensures front { BeginsIn (codes "\n\na") 1 3 }
    ensures in_quotes { BeginsIn (codes "\"a\n\"\nb") 2 3 }
{}
