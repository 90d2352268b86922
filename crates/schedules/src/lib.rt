// Schedules: the definitions of schedules and of the frame run, and condition 3. There is no code here.
#![tactic(auto)]
